//! How many places of a design are counted, before any is listed.

ghost use Rattle.std.specs.Prelude.{◌≡◌, ◌+◌, ◌^◌, ◌<◌, ◌≤◌, ℕ, min, length, slice_get, Some, IfOk};
ghost use Rattle.std.specs.Prelude.{true, false, slice_index_or};
ghost use Rattle.ix_rec.specs.declared.device.DeviceRec.{DeviceRec};
ghost use Rattle.ix_hierarchy.specs.Broken.{BreaksN10};
ghost use Rattle.ix_hierarchy.specs.Fits.{NetlistFits};
ghost use Rattle.ix_hierarchy.specs.Hierarchy.{inside, ports_of};
ghost use Rattle.ix_hierarchy.specs.Lists.{AreClosed, AreKinds};
ghost use Rattle.ix_counted.specs.Counts.{AreCounts, AreFew, CountsFit, IsKindIn, bits_to, most};
ghost use Rattle.ix_counted.specs.Counts.{in_cell, in_inside};

use ix_hierarchy::{Kind, declaration_at, width};
use ix_num::Memory;
use ix_rec::{Cell, NetlistRec};
use std::alloc::Global;

/// The most instances below the top, net occurrences and bits of the top's ports together.
pub const MOST_PLACES: u64 = 1 << 22;

// A number, where it doesn't pass the most places; else one more than these.
fn limited(number: u64) -> u64
    ensures { result ≡ min number most }
{
    number.min(MOST_PLACES + 1)
}

// How many nets and instances are in an instance of a cell, where this is known of those in it.
fn count_in(rec: &NetlistRec, cell: &Cell, counts: &[u64]) -> u64
    requires fits { CountsFit rec.now }
    requires there { (k : ℕ) × (slice_get rec.now.cell_list k ≡ Some cell.now) }
    requires many { length counts.now ≡ length rec.now.cell_decls }
    requires few { AreFew counts.now }
    ensures { result ≡ min (in_cell rec.now (λ d. slice_index_or counts.now d 0) cell.now) most }
{
    let mut count = limited(cell.nets.len() as u64);
    for place in 0..cell.insts.len() {
        let below = counts[declaration_at(rec, cell, place) as usize];
        count = limited(count + 1 + below);
    }
    count
}

// The same for an instance of a declaration, by what it is.
fn count_of(rec: &NetlistRec, kind: &Kind, counts: &[u64], declaration: u32) -> u64
    requires fits { CountsFit rec.now }
    requires kind { IsKindIn rec.now declaration kind.now }
    requires many { length counts.now ≡ length rec.now.cell_decls }
    requires few { AreFew counts.now }
    ensures { result ≡ min (in_inside rec.now (λ d. slice_index_or counts.now d 0)
        (inside rec.now declaration)) most }
{
    match kind {
        Kind::Inside(cell) => count_in(rec, rec.cell_list.at(*cell as usize), counts),
        _ => 0,
    }
}

// The counts of the declarations that the top reaches.
fn counts_of(
    alloc: Global,
    rec: &NetlistRec,
    kinds: &[Kind],
    closed: &[u32],
) -> Result<Vec<u64>, Memory>
    requires fits { CountsFit rec.now }
    requires kinds { (device : DeviceRec) × AreKinds device rec.now kinds.now }
    requires closed { AreClosed rec.now closed.now }
    ensures { IfOk result (λ counts. AreCounts rec.now closed.now (length closed.now)
        counts.items) }
{
    let mut counts = Vec::new(alloc);
    counts.resize(rec.cell_decls.len(), 0)?;
    for declaration in closed {
        let d = *declaration as usize;
        counts[d] = count_of(rec, &kinds[d], &counts, *declaration);
    }
    Ok(counts)
}

// How many bits the top's ports have.
fn top_bits(rec: &NetlistRec) -> u64
    requires { CountsFit rec.now }
    ensures { result ≡ min (bits_to rec.now (ports_of rec.now rec.now.top_inst.cell)
        (length (ports_of rec.now rec.now.top_inst.cell))) most }
{
    let top = rec.cell_decls.at(rec.top_inst.cell as usize);
    let mut count = 0;
    for place in 0..top.ports.len() {
        let port = rec.port_list.at(*top.ports.at(place) as usize);
        count = limited(count + width(port));
    }
    count
}

/// Whether the counted places are too many, which is the rule N10. `kinds` are those of all
/// declarations, and `closed` are the declarations that the top reaches, each behind all that it
/// contains. It takes time by the netlist's size.
pub fn is_too_large(
    alloc: Global,
    rec: &NetlistRec,
    kinds: &[Kind],
    closed: &[u32],
) -> Result<bool, Memory>
    requires fits { (names : ℕ) × NetlistFits names rec.now }
    requires kinds { (device : DeviceRec) × AreKinds device rec.now kinds.now }
    requires closed { AreClosed rec.now closed.now }
    ensures yes { IfOk result (λ large. large ≡ true → BreaksN10 rec.now) }
    ensures no { IfOk result (λ large. large ≡ false → ¬ BreaksN10 rec.now) }
{
    let counts = counts_of(alloc, rec, kinds, closed)?;
    let below = counts[rec.top_inst.cell as usize];
    Ok(below + top_bits(rec) > MOST_PLACES)
}
