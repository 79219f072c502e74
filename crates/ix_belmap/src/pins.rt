//! Fixed ports.

ghost use Rattle.std.specs.Prelude.{◌≡◌, ◌<◌, length, IfOk, IfErr};
ghost use Rattle.ix_flat.specs.Range.{IsInRange, IsNamed};
ghost use Rattle.ix_flat.specs.Whole.{IsWhole};
ghost use Rattle.ix_belmap.specs.Failing.{AreSites, IsFaultAt, IsFirstOf};
ghost use Rattle.ix_belmap.specs.Pins.{TopFits, HasPortCells, IsFixed, IsPinFault};
ghost use Rattle.ix_belmap.specs.Pins.{fixings as fixings_seen, is_nowhere_at, is_second};

use crate::ports::{Fixing, fixings};
use ix_device::Device;
use ix_first::{FirstByKey, number_of};
use ix_keys::Key;
use ix_num::{CellId, Memory, SiteId};
use ix_rec::{CellMap, Flat, Items, NetlistRec, Rule, Word};
use ix_strings::Names;
use std::alloc::Global;
use thiserror::Error;

/// Why ports can't be fixed.
#[derive(Debug, Drop, Error)]
pub enum PinFault {
    /// The rule that is broken, P4 or P5, and the name of the first port cell that breaks it.
    #[error("{0:?} at {1:?}")]
    Broken(Rule, Word),
    /// Out of memory.
    #[error("out of memory")]
    Memory,
}

// The fault of a port cell.
fn broken(alloc: Global, flat: &Flat, names: &Names, rule: Rule, place: usize) -> PinFault
    requires place { place < length flat.now.cells }
    requires named { IsNamed (length names.now) flat.now }
    ensures { IsFaultAt names.now flat.now rule place result }
{
    match Word::new(alloc, names.name(flat.cells.at(place).name)) {
        Ok(word) => PinFault::Broken(rule, word),
        Err(_) => PinFault::Memory,
    }
}

// The first port cell that is fixed nowhere.
fn first_nowhere(all: &Items<Fixing>) -> Option<usize>
    ensures { IsFirstOf (is_nowhere_at all.now) (length all.now) result }
{
    for i in 0..all.len() {
        if let Fixing::Nowhere = *all.at(i) {
            return Some(i);
        }
    }
    None
}

// The first port cell whose package pin an earlier one names.
fn first_second(alloc: Global, all: &Items<Fixing>) -> Result<Option<usize>, Memory>
    ensures { IfOk result (IsFirstOf (is_second all.now) (length all.now)) }
{
    let mut used = FirstByKey::new(alloc);
    for i in 0..all.len() {
        if let Fixing::At { pin, .. } = *all.at(i) {
            if !used.put(Key::of_name(pin), ())? {
                return Ok(Some(i));
            }
        }
    }
    Ok(None)
}

// The sites of fixed port cells.
fn sites(alloc: Global, all: &Items<Fixing>) -> Result<CellMap<SiteId>, Memory>
    ensures { IfOk result (AreSites all.now) }
{
    let mut fixed = CellMap::new(alloc);
    for cell in 0..number_of(all.len())? {
        if let Fixing::At { site, .. } = *all.at(cell as usize) {
            fixed.insert(CellId::new(cell), site)?;
        }
    }
    Ok(fixed)
}

// The flat design with these sites of its fixed cells.
fn with_sites(flat: Flat, sites: CellMap<SiteId>) -> Flat
    ensures fixed { result.fixed ≡ sites }
    ensures cells { result.cells ≡ flat.cells }
    ensures ports { result.ports ≡ flat.ports }
    ensures nets { result.nets ≡ flat.nets }
    ensures pins { result.pins ≡ flat.pins }
    ensures tables { result.tables ≡ flat.tables }
{
    let Flat {
        cells,
        ports,
        nets,
        pins,
        tables,
        fixed: _,
    } = flat;
    Flat {
        cells,
        ports,
        nets,
        pins,
        tables,
        fixed: sites,
    }
}

/// The flat design with the sites of its fixed ports. A port cell is fixed where its port has a
/// property `PACKAGE_PIN`, or `PACKAGE_PIN[k]` for bit `k` of a bus, to the site of the package's
/// first pin of that name. The package is the first one that the netlist's property `PACKAGE`
/// names, or the device's first where there is no such property. The flat design is that of the
/// netlist: it has a port cell for each bit of the top's inputs and outputs. Where the design is
/// refused it is given up.
///
/// # Errors
///
/// `Broken` with P4 exactly where the package or pin of a fixed port isn't there or has no site;
/// with P5 exactly where P4 isn't broken and two port cells name one package pin, at the later one;
/// `Memory`. The word is the name of the first port cell, in flat order, at which the rule is
/// broken.
pub fn fixed_pins(
    alloc: Global,
    rec: &NetlistRec,
    device: &Device,
    flat: Flat,
    names: &Names,
) -> Result<Flat, PinFault>
    requires top { TopFits rec.now }
    requires ports { HasPortCells rec.now flat }
    requires range { IsInRange device.now flat }
    requires named { IsNamed (length names.now) flat }
    ensures fixed { IfOk result (IsFixed flat (fixings_seen names.now device.now rec.now)) }
    ensures range { IfOk result (IsInRange device.now) }
    ensures named { IfOk result (IsNamed (length names.now)) }
    ensures whole { IsWhole names.now device.now flat
        → IfOk result (IsWhole names.now device.now) }
    ensures broken { IfErr result (IsPinFault names.now flat
        (fixings_seen names.now device.now rec.now)) }
{
    let all = match fixings(alloc, rec, device, names) {
        Ok(all) => all,
        Err(_) => return Err(PinFault::Memory),
    };
    if let Some(place) = first_nowhere(&all) {
        return Err(broken(alloc, &flat, names, Rule::P4, place));
    }
    match first_second(alloc, &all) {
        Err(_) => return Err(PinFault::Memory),
        Ok(Some(place)) => return Err(broken(alloc, &flat, names, Rule::P5, place)),
        Ok(None) => {}
    }
    match sites(alloc, &all) {
        Err(_) => Err(PinFault::Memory),
        Ok(sites) => Ok(with_sites(flat, sites)),
    }
}
