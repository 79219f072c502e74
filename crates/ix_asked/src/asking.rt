//! N1, N2, N9 and N10.

ghost use Rattle.std.specs.Prelude.{◌≡◌, ◌+◌, ◌-◌, ◌<◌, ◌≤◌, ◌^◌, ℕ, length, IfOk, IfErr};
ghost use Rattle.std.specs.Prelude.{OnOk};
ghost use Rattle.ix_strings.specs.Names.{KeepsNumbers};
ghost use Rattle.ix_rec.specs.declared.device.DeviceRec.{DeviceRec as DeviceSeen};
ghost use Rattle.ix_hierarchy.specs.Broken.{BreaksN2, BreaksN9, BreaksN10, None1, NoneBreaks};
ghost use Rattle.ix_hierarchy.specs.Broken.{Keeps2};
ghost use Rattle.ix_hierarchy.specs.Fits.{NetlistFits};
ghost use Rattle.ix_hierarchy.specs.Lists.{AreClosed, AreFirstCells, AreKinds, AreMet, AreWritten};
ghost use Rattle.ix_hierarchy.specs.Lists.{IsOuterRow, IsOwnRow};
ghost use Rattle.ix_bit_rows.specs.Table.{AreRowsIn};
ghost use Rattle.ix_join.specs.Asked.{IsAsked};
ghost use Rattle.ix_asked.specs.Asking.{IsFault, IsTooLarge};
ghost use Rattle.ix_asked.specs.Faults.{IsDesignFault};

use crate::fault::{DesignFault, broken};
use ix_bit_names::written_names;
use ix_bit_rows::Rows;
use ix_counted::is_too_large;
use ix_flat_texts::joined_names;
use ix_hierarchy::Kind;
use ix_num::NameId;
use ix_port_bits::all_rows;
use ix_reach::{Reach, ReachFault, reached};
use ix_rec::{DeviceRec, NetlistRec, Rule};
use ix_strings::Names;
use ix_twice::first_twice;
use ix_types::kinds;
use ix_unknown::way_to_unknown;
use std::alloc::Global;

/// What is known of a netlist that keeps N1, N2, N9 and N10.
#[derive(Drop)]
pub struct Known {
    /// What an instance of each declaration is.
    pub kinds: Vec<Kind>,
    /// The bits of cells themselves that their nets name.
    pub own: Rows,
    /// The bits of instances that nets name.
    pub outer: Rows,
    /// And their written names.
    pub written: Vec<NameId>,
}

// N1.
fn ask_n1(alloc: Global, rec: &NetlistRec, names: &Names) -> Result<Reach, DesignFault>
    requires { NetlistFits (length names.now) rec.now }
    ensures keeps { OnOk result (None1 rec.now) }
    ensures cells { IfOk result (λ reach. AreFirstCells rec.now reach.cells.items) }
    ensures met { IfOk result (λ reach. AreMet rec.now reach.met.items) }
    ensures closed { IfOk result (λ reach. AreClosed rec.now reach.closed.items) }
    ensures broken { IfErr result (IsFault names.now rec.now) }
{
    match reached(alloc, rec) {
        Ok(reach) => Ok(reach),
        Err(ReachFault::Memory) => Err(DesignFault::Memory),
        Err(ReachFault::Broken(declaration)) => {
            let name = rec.cell_decls.at(declaration as usize).name;
            Err(broken(alloc, Rule::N1, names.name(name)))
        }
    }
}

// N2.
fn ask_n2(
    alloc: Global,
    rec: &NetlistRec,
    names: &Names,
    reach: &Reach,
    own: &Rows,
    outer: &Rows,
    written: &[NameId],
) -> Result<(), DesignFault>
    requires fits { NetlistFits (length names.now) rec.now }
    requires keeps { None1 rec.now }
    requires cells { AreFirstCells rec.now reach.now.cells.items }
    requires met { AreMet rec.now reach.now.met.items }
    requires own { AreRowsIn rec.now IsOwnRow own.now }
    requires outer { AreRowsIn rec.now IsOuterRow outer.now }
    requires written { AreWritten names.now rec.now outer.now.rows written.now }
    ensures keeps { OnOk result (NoneBreaks (BreaksN2 names.now rec.now)) }
    ensures broken { IfErr result (IsFault names.now rec.now) }
{
    match first_twice(
        alloc,
        rec,
        names,
        &reach.cells,
        &reach.met,
        own,
        outer,
        written,
    ) {
        Ok(None) => Ok(()),
        Ok(Some((cell, net))) => {
            let name = rec.cell_list.at(cell as usize).nets.at(net as usize).name;
            Err(broken(alloc, Rule::N2, names.name(name)))
        }
        Err(_) => Err(DesignFault::Memory),
    }
}

// N9.
fn ask_n9(
    alloc: Global,
    rec: &NetlistRec,
    device: &DeviceRec,
    names: &Names,
    kinds: &[Kind],
    closed: &[u32],
) -> Result<(), DesignFault>
    requires fits { NetlistFits (length names.now) rec.now }
    requires kinds { AreKinds device.now rec.now kinds.now }
    requires closed { AreClosed rec.now closed.now }
    requires keeps { Keeps2 names.now rec.now }
    ensures keeps { OnOk result (NoneBreaks (BreaksN9 device.now rec.now)) }
    ensures broken { IfErr result (IsDesignFault names.now device.now rec.now) }
{
    match way_to_unknown(alloc, rec, kinds, closed) {
        Ok(None) => Ok(()),
        Ok(Some(way)) => match joined_names(alloc, rec, names, &way) {
            Ok(word) => Err(DesignFault::Broken(Rule::N9, word)),
            Err(_) => Err(DesignFault::Memory),
        },
        Err(_) => Err(DesignFault::Memory),
    }
}

// N10.
fn ask_n10(
    alloc: Global,
    rec: &NetlistRec,
    kinds: &[Kind],
    closed: &[u32],
) -> Result<(), DesignFault>
    requires fits { (names : ℕ) × NetlistFits names rec.now }
    requires kinds { (device : DeviceSeen) × AreKinds device rec.now kinds.now }
    requires closed { AreClosed rec.now closed.now }
    ensures keeps { OnOk result (¬ BreaksN10 rec.now) }
    ensures broken { IfErr result (IsTooLarge rec.now) }
{
    match is_too_large(alloc, rec, kinds, closed) {
        Ok(true) => Err(broken(alloc, Rule::N10, "")),
        Ok(false) => Ok(()),
        Err(_) => Err(DesignFault::Memory),
    }
}

/// What is known of a netlist that keeps N1, N2, N9 and N10. The written names of bits of buses
/// become names.
///
/// # Errors
///
/// `Broken` with the first of these rules that is broken and the name that is told; else `Memory`.
pub fn ask(
    alloc: Global,
    rec: &NetlistRec,
    device: &DeviceRec,
    names: &mut Names,
    left: &mut u32,
) -> Result<Known, DesignFault>
    requires fits { NetlistFits (length names.old) rec.now }
    requires room { length names.old + left.old < 2 ^ 32 - 1 }
    ensures asked { IfOk result (λ known. IsAsked names.new device.now rec.now known.kinds.items
        known.own known.outer known.written.items) }
    ensures broken { IfErr result (IsDesignFault names.new device.now rec.now) }
    ensures keeps { KeepsNumbers names.old names.new }
    ensures counted { length names.new + left.new ≤ length names.old + left.old }
{
    let reach = ask_n1(alloc, rec, names)?;
    let own = all_rows(alloc, rec, &reach.cells, &reach.met, true)?;
    let outer = all_rows(alloc, rec, &reach.cells, &reach.met, false)?;
    let written = written_names(alloc, rec, &outer, names, left)?;
    ask_n2(alloc, rec, names, &reach, &own, &outer, &written)?;
    let kinds = kinds(alloc, rec, &reach.cells, device)?;
    ask_n9(alloc, rec, device, names, &kinds, &reach.closed)?;
    ask_n10(alloc, rec, &kinds, &reach.closed)?;
    // No two names are alike, which the table says where it is asked.
    let _count = names.len();
    Ok(Known {
        kinds,
        own,
        outer,
        written,
    })
}
