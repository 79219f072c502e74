//! The elements that get tables, and what their LUTs force.

ghost use Rattle.std.specs.Prelude.{◌≡◌, ◌<◌, ◌≤◌, ◌+◌, length, IfOk, OnOk, Some, slice_get};
ghost use Rattle.std.specs.FinMap as map;
ghost use Rattle.ix_phys_write.specs.Record.{IsPhysNamed};
ghost use Rattle.ix_message.specs.Shape.{Text};
ghost use Rattle.std.specs.Prelude.{List};
ghost use Rattle.ix_fill_tables.specs.Forced.{usable_element as usable_element_seen, IsReady};
ghost use Rattle.ix_fill_tables.specs.Forced.{TellsElement, TellsForced, AreForcedBy, AreForced};
ghost use Rattle.ix_fill_tables.specs.Forced.{bits_so_far};
ghost use Rattle.ix_fill_tables.specs.Told.{AreTold, told_table};

use crate::forcing::{ForcedBits, forced_bits};
use crate::netlist::Netlist;
use crate::pairs::PairMap;
use crate::ties::ties_of;
use ix_device::Device;
use ix_num::{Memory, NameId};
use ix_pin_maps::places_are_one;
use ix_placed_luts::placed_lut;
use ix_rec::{CellPlacement, TruthTable};
use std::alloc::Global;

/// What the LUTs of elements force, by the instance of the site and the element's number in its
/// type.
pub(crate) type Forced = PairMap<ForcedBits>;

// The table of so many inputs that the design tells of the first cell of this name.
fn told_to(on: &Netlist<'_>, name: NameId, inputs: u32) -> Option<TruthTable>
    requires told { AreTold on.now.flat.now on.now.names on.now.told.now }
    requires name { name < on.now.names }
    ensures { result ≡ told_table on.now.flat.now name inputs }
{
    let names = on.names;
    on.told.table(on.flat, names, name, inputs)
}

// The bits that a placement forces; none exactly where the cell is no LUT or isn't placed as one,
// the design tells no table of it, or both constants hold a wire of an input that it doesn't use.
fn bits_of(on: &Netlist<'_>, placement: &CellPlacement) -> Option<ForcedBits>
    requires ready { IsReady on.now.device.now on.now.flat.now on.now.phys.now on.now.names
        on.now.places.now on.now.instances.now on.now.constants.now on.now.told.now }
    requires named { placement.now.cell_name < on.now.names }
    ensures { TellsForced on.now.device.now on.now.phys.now on.now.flat.now placement.now result }
{
    places_are_one();
    let at = placed_lut(on.device, on.places, placement)?;
    let bel = at.shape.bels[at.place as usize];
    let used = at.inputs.as_slice();
    let table = told_to(on, placement.cell_name, used.len() as u32)?;
    let ties = ties_of(on, at.site, at.ty, at.bel, at.lut_bel, &bel, used)?;
    Some(forced_bits(&bel, used, &ties, table.bits))
}

// The same, with no bits where it forces none.
fn forced_by(on: &Netlist<'_>, placement: &CellPlacement) -> ForcedBits
    requires ready { IsReady on.now.device.now on.now.flat.now on.now.phys.now on.now.names
        on.now.places.now on.now.instances.now on.now.constants.now on.now.told.now }
    requires named { placement.now.cell_name < on.now.names }
    ensures { AreForcedBy on.now.device.now on.now.phys.now on.now.flat.now placement.now result }
{
    so_far(bits_of(on, placement))
}

// The usable element in which a cell is placed.
fn usable_element(device: &Device, placement: &CellPlacement) -> Option<u32>
    ensures { result ≡ usable_element_seen device.now placement.now }
{
    let site = device.site(placement.site)?;
    let ty = device.type_of(site);
    let bel = device.bel(ty, placement.bel)?;
    let (element, _) = device.element_of(ty, bel)?;
    device.shape(ty, element)?;
    Some(element)
}

// The element in which a LUT is placed: the first instance of its site, and the element's number.
// None exactly where the cell is no LUT, its site isn't in use, or its BEL is in no usable element.
fn element_of(on: &Netlist<'_>, placement: &CellPlacement) -> Option<(u32, u32)>
    requires ready { IsReady on.now.device.now on.now.flat.now on.now.phys.now on.now.names
        on.now.places.now on.now.instances.now on.now.constants.now on.now.told.now }
    requires named { placement.now.site < on.now.names }
    ensures { TellsElement on.now.device.now on.now.phys.now placement.now result }
{
    on.places.cell(on.device, placement.ty)?;
    let element = usable_element(on.device, placement)?;
    let instance = on.instances.get(placement.site.get() as usize)?;
    Some((instance, element))
}

// The bits so far, or none.
fn so_far(forced: Option<ForcedBits>) -> ForcedBits
    ensures { result ≡ bits_so_far forced }
{
    match forced {
        None => ForcedBits { ones: 0, zeros: 0 },
        Some(forced) => forced,
    }
}

// What the placement of this number forces besides.
fn add_placement(on: &Netlist<'_>, forced: &mut Forced, k: usize) -> Result<(), Memory>
    requires ready { IsReady on.now.device.now on.now.flat.now on.now.phys.now on.now.names
        on.now.places.now on.now.instances.now on.now.constants.now on.now.told.now }
    requires named { (names : List Text) × (length names ≡ on.now.names)
        × IsPhysNamed names on.now.phys.now }
    requires inside { k < length on.now.phys.now.placements }
    requires forced { AreForced on.now.device.now on.now.phys.now on.now.flat.now k forced.old }
    ensures forced { OnOk result (AreForced on.now.device.now on.now.phys.now on.now.flat.now
        (k + 1) forced.new) }
    ensures few { map.len forced.new ≤ map.len forced.old + 1 }
{
    let placement = on.phys.placements.at(k);
    match element_of(on, placement) {
        None => Ok(()),
        Some((instance, element)) => {
            let before = so_far(forced.get(instance, element));
            let all = before.and(forced_by(on, placement));
            forced.insert(instance, element, all)
        }
    }
}

/// What the LUTs of a netlist force. `Memory` is the only error.
pub(crate) fn forced_tables(alloc: Global, on: &Netlist<'_>) -> Result<Forced, Memory>
    requires ready { IsReady on.now.device.now on.now.flat.now on.now.phys.now on.now.names
        on.now.places.now on.now.instances.now on.now.constants.now on.now.told.now }
    requires named { (names : List Text) × (length names ≡ on.now.names)
        × IsPhysNamed names on.now.phys.now }
    ensures forced { IfOk result (AreForced on.now.device.now on.now.phys.now on.now.flat.now
        (length on.now.phys.now.placements)) }
    ensures few { IfOk result (λ forced. map.len forced ≤ length on.now.phys.now.placements) }
{
    let mut forced = Forced::new(alloc);
    for k in 0..on.phys.placements.len() {
        add_placement(on, &mut forced, k)?;
    }
    Ok(forced)
}
