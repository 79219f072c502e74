//! L1 of placements.

ghost use Rattle.std.specs.Prelude.{◌≡◌, ◌<◌, ◌^◌, length, Some, IfOk};
ghost use Rattle.std.specs.Bool.{Decides};
ghost use Rattle.std.specs.List.{AllByRecursion};
ghost use Rattle.ix_num.specs.Numbers.{NameNumber};
ghost use Rattle.ix_legal.specs.Names.{PlacementIsNamed};
ghost use Rattle.ix_legal.specs.Sites.{type_at};
ghost use Rattle.ix_walk.specs.Firsts.{TellsMisfit};
ghost use Rattle.ix_named_there.specs.Parts.{AreCellTypes, AreInside, PlacementNamedAt};
ghost use Rattle.ix_named_there.specs.Parts.{PinIsNamed, type_of_cell};

use ix_device::Device;
use ix_num::{Memory, SiteTypeId};
use ix_rec::{CellPlacement, Items, PinMapping};
use ix_walk::{NameMarks, site_type_at};
use std::alloc::Global;

// The cell types that the device lists, as far as they are among so many names.
fn cell_types(alloc: Global, device: &Device, count: u32) -> Result<NameMarks, Memory>
    ensures { IfOk result (AreCellTypes device.now.cell_bel_map count) }
{
    let mut types = NameMarks::new(alloc, count)?;
    let listed = &device.rec().cell_bel_map;
    for i in 0..listed.len() {
        let cell = listed.at(i).cell;
        if cell.get() < count {
            let _new = types.add(cell);
        }
    }
    Ok(types)
}

// Whether a site type has the BEL, and the BEL the pin, that an entry of a pin map names.
fn has_pin(device: &Device, t: SiteTypeId, entry: &PinMapping) -> bool
    requires { t < length device.now.site_type_list }
    ensures { (site : NameNumber) → type_at device.now site ≡ Some t
        → Decides result (PinIsNamed device.now site entry.now) }
{
    match device.bel(t, entry.bel) {
        Some(bel) => device.bel_pin(t, bel, entry.bel_pin).is_some(),
        None => false,
    }
}

// The same of all entries.
fn has_pins(device: &Device, t: SiteTypeId, pin_map: &Items<PinMapping>) -> bool
    requires { t < length device.now.site_type_list }
    ensures { (site : NameNumber) → type_at device.now site ≡ Some t
        → Decides result (AllByRecursion (PinIsNamed device.now site) pin_map.now) }
{
    for i in 0..pin_map.len() {
        if !has_pin(device, t, pin_map.at(i)) {
            return false;
        }
    }
    true
}

// Whether the cell type, the site, the BEL and the pins are there.
fn is_named(device: &Device, types: &NameMarks, placement: &CellPlacement) -> bool
    requires types { AreCellTypes device.now.cell_bel_map (length types.now) types.now }
    requires inside { placement.now.ty < length types.now }
    ensures { Decides result (PlacementIsNamed device.now placement.now) }
{
    let Some(t) = site_type_at(device, placement.site) else {
        return false;
    };
    types.has(placement.ty)
        && device.bel(t, placement.bel).is_some()
        && has_pins(device, t, &placement.pin_map)
}

/// The place of the first placement that breaks L1. The names of its cells' types are below the
/// count.
pub(crate) fn first_placement(
    alloc: Global,
    device: &Device,
    placements: &Items<CellPlacement>,
    count: u32,
) -> Result<Option<u32>, Memory>
    requires few { length placements.now < 2 ^ 32 }
    requires inside { AreInside type_of_cell placements.now count }
    ensures { IfOk result (TellsMisfit (PlacementNamedAt device.now) placements.now) }
{
    let types = cell_types(alloc, device, count)?;
    for i in 0..placements.len() {
        if !is_named(device, &types, placements.at(i)) {
            return Ok(Some(i as u32));
        }
    }
    Ok(None)
}
