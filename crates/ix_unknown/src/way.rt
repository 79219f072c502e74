//! The way to the first leaf of unknown type.

ghost use Rattle.std.specs.Prelude.{◌≡◌, ◌↔◌, ◌<◌, ℕ, List, Some, IfOk, IsTrue, MatchOption};
ghost use Rattle.std.specs.Prelude.{length};
ghost use Rattle.std.specs.Prelude.{slice_get};
ghost use Rattle.ix_rec.specs.declared.device.DeviceRec.{DeviceRec};
ghost use Rattle.ix_rec.specs.declared.netlist.Cell.{Cell};
ghost use Rattle.ix_hierarchy.specs.Fits.{NetlistFits};
ghost use Rattle.ix_hierarchy.specs.Broken.{BreaksN9, NoneBreaks};
ghost use Rattle.ix_hierarchy.specs.Lists.{AreClosed, AreKinds};
ghost use Rattle.ix_unknown.specs.FirstUnknown.{IsFirstUnknown};
ghost use Rattle.ix_unknown.specs.Marked.{HasMarked, IsMarked, NoneMarked, AreMarked};

use ix_hierarchy::Kind;
use ix_num::Memory;
use ix_rec::NetlistRec;
use std::alloc::Global;

// Whether the declaration of the instance at a place of a cell is marked.
fn is_marked(rec: &NetlistRec, cell: u32, marks: &[bool], place: usize) -> bool
    requires fits { (names : ℕ) × NetlistFits names rec.now }
    requires many { length marks.now ≡ length rec.now.cell_decls }
    requires there { (cell_seen : Cell) × (slice_get rec.now.cell_list cell ≡ Some cell_seen)
        × (place < length cell_seen.insts) }
    ensures { (cell_seen : Cell) → slice_get rec.now.cell_list cell ≡ Some cell_seen
        → IsTrue result ↔ IsMarked rec.now marks.now cell_seen place }
{
    let number = *rec.cell_list.at(cell as usize).insts.at(place);
    marks[rec.inst_list.at(number as usize).cell as usize]
}

// The first place of a cell at which the declaration is marked.
fn first_marked(rec: &NetlistRec, cell: u32, marks: &[bool]) -> Option<usize>
    requires fits { (names : ℕ) × NetlistFits names rec.now }
    requires many { length marks.now ≡ length rec.now.cell_decls }
    requires there { cell < length rec.now.cell_list }
    ensures { (cell_seen : Cell) → slice_get rec.now.cell_list cell ≡ Some cell_seen
        → MatchOption result (NoneMarked rec.now marks.now cell_seen (length cell_seen.insts))
        (λ place. IsMarked rec.now marks.now cell_seen place
        × NoneMarked rec.now marks.now cell_seen place) }
{
    for place in 0..rec.cell_list.at(cell as usize).insts.len() {
        if is_marked(rec, cell, marks, place) {
            return Some(place);
        }
    }
    None
}

// Whether a declaration is an unknown leaf or has one in it, where this is known of those in it.
fn has_marked(rec: &NetlistRec, kinds: &[Kind], marks: &[bool], declaration: u32) -> bool
    requires fits { (names : ℕ) × NetlistFits names rec.now }
    requires kinds { (device : DeviceRec) × AreKinds device rec.now kinds.now }
    requires many { length marks.now ≡ length rec.now.cell_decls }
    requires there { declaration < length kinds.now }
    ensures { IsTrue result ↔ HasMarked rec.now kinds.now marks.now declaration }
{
    match kinds[declaration as usize] {
        Kind::Inside(cell) => first_marked(rec, cell, marks).is_some(),
        Kind::Unknown => true,
        Kind::Constant(_) => false,
        Kind::Plain => false,
    }
}

// Marks the declarations that are unknown leaves or have one in them.
fn mark_all(rec: &NetlistRec, kinds: &[Kind], closed: &[u32], marks: &mut [bool])
    requires fits { (names : ℕ) × NetlistFits names rec.now }
    requires kinds { (device : DeviceRec) × AreKinds device rec.now kinds.now }
    requires closed { AreClosed rec.now closed.now }
    requires many { length marks.old ≡ length kinds.now }
    ensures { AreMarked rec.now kinds.now closed.now marks.new (length closed.now) }
{
    for declaration in closed {
        let mark = has_marked(rec, kinds, marks, *declaration);
        marks[*declaration as usize] = mark;
    }
}

// Whether each declaration that the top reaches is an unknown leaf or has one in it.
fn marks_of(
    alloc: Global,
    rec: &NetlistRec,
    kinds: &[Kind],
    closed: &[u32],
) -> Result<Vec<bool>, Memory>
    requires fits { (names : ℕ) × NetlistFits names rec.now }
    requires kinds { (device : DeviceRec) × AreKinds device rec.now kinds.now }
    requires closed { AreClosed rec.now closed.now }
    ensures { IfOk result (λ marks. AreMarked rec.now kinds.now closed.now marks.items
        (length closed.now)) }
{
    let mut marks = Vec::new(alloc);
    marks.resize(kinds.len(), false)?;
    mark_all(rec, kinds, closed, &mut marks);
    Ok(marks)
}

/// The instances on the way from the top to the first leaf of unknown type, by their numbers in the
/// netlist's list; none exactly where there is no such leaf. `closed` has each declaration behind
/// all that it contains. `Memory` is the only error. The time grows with the netlist.
pub fn way_to_unknown(
    alloc: Global,
    rec: &NetlistRec,
    kinds: &[Kind],
    closed: &[u32],
) -> Result<Option<Vec<u32>>, Memory>
    requires fits { (names : ℕ) × NetlistFits names rec.now }
    requires kinds { (device : DeviceRec) × AreKinds device rec.now kinds.now }
    requires closed { AreClosed rec.now closed.now }
    ensures { (device : DeviceRec) → AreKinds device rec.now kinds.now
        → IfOk result (λ found. MatchOption found (NoneBreaks (BreaksN9 device rec.now))
        (λ way. IsFirstUnknown device rec.now way.items)) }
{
    let marks = marks_of(alloc, rec, kinds, closed)?;
    let mut way = Vec::new(alloc);
    let mut declaration = rec.top_inst.cell;
    while let Kind::Inside(cell) = kinds[declaration as usize] {
        let Some(place) = first_marked(rec, cell, &marks) else {
            return Ok(None);
        };
        let instance = *rec.cell_list.at(cell as usize).insts.at(place);
        way.push(instance)?;
        declaration = rec.inst_list.at(instance as usize).cell;
    }
    if way.is_empty() {
        return Ok(None);
    }
    Ok(Some(way))
}
