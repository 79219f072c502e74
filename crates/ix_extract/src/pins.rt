//! The nets of the pins of placed cells.

ghost use Rattle.std.specs.Prelude.{◌≡◌, ◌<◌, length, nat_eq, option_map, Some, IfOk, OnOk};
ghost use Rattle.std.specs.Prelude.{true, false};
ghost use Rattle.std.specs.List.{list_any};
ghost use Rattle.ix_device.specs.PinsListed.{pins_listed};
ghost use Rattle.ix_lut_places.specs.Places.{ArePlaces};
ghost use Rattle.ix_legal.specs.Legal.{IsSmall};
ghost use Rattle.ix_legal.specs.Sites.{lut_cell_of, pins_at};
ghost use Rattle.ix_extract.specs.Extracted.{bel_pin_of, is_lut_input as is_lut_input_seen};
ghost use Rattle.ix_extract.specs.Taken.{AddsPins, AreOn, ArePins, IsBelPinOf, IsPlacedAt};
ghost use Rattle.ix_extract.specs.Taken.{TellHolders};

use crate::held::{Netlist, holder_of};
use crate::pin_maps::{is_lut_input, mapped_pin};
use ix_device::PinList;
use ix_num::{BelPinId, CellId, Memory, NameId, NetRef, SiteId, SiteTypeId};
use ix_rec::{CellPlacement, LutCell, PinMap};
use std::alloc::Global;

/// A placed cell.
#[derive(Clone, Copy)]
struct Placed<'a> {
    // Its number.
    cell: u32,
    // Its placement.
    placement: &'a CellPlacement,
    // The site.
    site: SiteId,
    // The site's type.
    ty: SiteTypeId,
}

// Puts a pin of a cell on the net that holds the wire of its BEL pin, where there is one.
fn put_pin(
    on: &Netlist<'_>,
    at: &Placed<'_>,
    pins: &mut PinMap<NetRef>,
    name: NameId,
    pin: BelPinId,
) -> Result<(), Memory>
    requires ready { TellHolders on.now.device.now on.now.phys.now on.now.ends.now
        on.now.holders.now on.now.ranks.now }
    requires at { IsPlacedAt on.now.device.now on.now.phys.now at.now.cell at.now.placement.now
        at.now.site at.now.ty }
    requires pin { bel_pin_of on.now.device.now at.now.placement.now name ≡ Some pin }
    requires inside { IsBelPinOf on.now.device.now at.now.ty pin }
    requires are_on { AreOn on.now.device.now on.now.phys.now pins.old }
    ensures { OnOk result (AddsPins on.now.device.now on.now.phys.now at.now.cell (λ p. p ≡ name)
        pins.old pins.new) }
{
    if let Some(wire) = on.device.wire_of(at.ty, pin) {
        if let Some(net) = holder_of(on, at.site, wire) {
            pins.insert(CellId::new(at.cell), name, net)?;
        }
    }
    Ok(())
}

// Puts the pins of a cell that aren't inputs of a LUT, by the device's pin map.
fn put_listed(
    on: &Netlist<'_>,
    at: &Placed<'_>,
    lut: Option<&LutCell>,
    list: &PinList<'_>,
    pins: &mut PinMap<NetRef>,
) -> Result<(), Memory>
    requires ready { TellHolders on.now.device.now on.now.phys.now on.now.ends.now
        on.now.holders.now on.now.ranks.now }
    requires at { IsPlacedAt on.now.device.now on.now.phys.now at.now.cell at.now.placement.now
        at.now.site at.now.ty }
    requires lut { option_map (λ l. l.now) lut
        ≡ lut_cell_of on.now.device.now at.now.placement.now.ty }
    requires list { pins_at on.now.device.now at.now.placement.now.ty at.now.placement.now.site
        at.now.placement.now.bel ≡ Some (pins_listed list.now) }
    requires are_on { AreOn on.now.device.now on.now.phys.now pins.old }
    ensures { OnOk result (AddsPins on.now.device.now on.now.phys.now at.now.cell
        (λ p. is_lut_input_seen (lut_cell_of on.now.device.now at.now.placement.now.ty) p ≡ false)
        pins.old pins.new) }
{
    for j in 0..list.len() {
        let (name, pin) = list.at(j);
        if !is_lut_input(lut, name) {
            put_pin(on, at, pins, name, pin)?;
        }
    }
    Ok(())
}

// The same where the BEL may not be one that admits the cell.
fn put_by_device(
    on: &Netlist<'_>,
    at: &Placed<'_>,
    lut: Option<&LutCell>,
    pins: &mut PinMap<NetRef>,
) -> Result<(), Memory>
    requires ready { TellHolders on.now.device.now on.now.phys.now on.now.ends.now
        on.now.holders.now on.now.ranks.now }
    requires at { IsPlacedAt on.now.device.now on.now.phys.now at.now.cell at.now.placement.now
        at.now.site at.now.ty }
    requires lut { option_map (λ l. l.now) lut
        ≡ lut_cell_of on.now.device.now at.now.placement.now.ty }
    requires are_on { AreOn on.now.device.now on.now.phys.now pins.old }
    ensures { OnOk result (AddsPins on.now.device.now on.now.phys.now at.now.cell
        (λ p. is_lut_input_seen (lut_cell_of on.now.device.now at.now.placement.now.ty) p ≡ false)
        pins.old pins.new) }
{
    let Some(bel) = on.device.bel(at.ty, at.placement.bel) else {
        return Ok(());
    };
    match on.device.pins_of(at.placement.ty, at.ty, bel) {
        None => Ok(()),
        Some(list) => put_listed(on, at, lut, &list, pins),
    }
}

// Puts an input of a LUT, by the pin map of its placement.
fn put_input(
    on: &Netlist<'_>,
    at: &Placed<'_>,
    name: NameId,
    pins: &mut PinMap<NetRef>,
) -> Result<(), Memory>
    requires ready { TellHolders on.now.device.now on.now.phys.now on.now.ends.now
        on.now.holders.now on.now.ranks.now }
    requires at { IsPlacedAt on.now.device.now on.now.phys.now at.now.cell at.now.placement.now
        at.now.site at.now.ty }
    requires input { is_lut_input_seen (lut_cell_of on.now.device.now at.now.placement.now.ty) name
        ≡ true }
    requires are_on { AreOn on.now.device.now on.now.phys.now pins.old }
    ensures { OnOk result (AddsPins on.now.device.now on.now.phys.now at.now.cell (λ p. p ≡ name)
        pins.old pins.new) }
{
    match mapped_pin(on.device, at.ty, at.placement, name) {
        None => Ok(()),
        Some(pin) => put_pin(on, at, pins, name, pin),
    }
}

// Puts the inputs of a LUT. It walks over the pin map for each of them.
fn put_inputs(
    on: &Netlist<'_>,
    at: &Placed<'_>,
    lut: &LutCell,
    pins: &mut PinMap<NetRef>,
) -> Result<(), Memory>
    requires ready { TellHolders on.now.device.now on.now.phys.now on.now.ends.now
        on.now.holders.now on.now.ranks.now }
    requires at { IsPlacedAt on.now.device.now on.now.phys.now at.now.cell at.now.placement.now
        at.now.site at.now.ty }
    requires lut { lut_cell_of on.now.device.now at.now.placement.now.ty ≡ Some lut.now }
    requires are_on { AreOn on.now.device.now on.now.phys.now pins.old }
    ensures { OnOk result (AddsPins on.now.device.now on.now.phys.now at.now.cell
        (λ p. list_any (nat_eq p) lut.now.input_pins ≡ true) pins.old pins.new) }
{
    for j in 0..lut.input_pins.len() {
        put_input(on, at, *lut.input_pins.at(j), pins)?;
    }
    Ok(())
}

// Puts the pins of a placed cell.
fn put_placed(on: &Netlist<'_>, at: &Placed<'_>, pins: &mut PinMap<NetRef>) -> Result<(), Memory>
    requires ready { TellHolders on.now.device.now on.now.phys.now on.now.ends.now
        on.now.holders.now on.now.ranks.now }
    requires places { ArePlaces on.now.device.now on.now.places.now }
    requires at { IsPlacedAt on.now.device.now on.now.phys.now at.now.cell at.now.placement.now
        at.now.site at.now.ty }
    requires are_on { AreOn on.now.device.now on.now.phys.now pins.old }
    ensures { OnOk result (AddsPins on.now.device.now on.now.phys.now at.now.cell (λ p. Unit {0})
        pins.old pins.new) }
{
    match on.places.cell(on.device, at.placement.ty) {
        None => put_by_device(on, at, None, pins),
        Some(lut) => {
            put_inputs(on, at, lut, pins)?;
            put_by_device(on, at, Some(lut), pins)
        }
    }
}

// Puts the pins of the cell of this number.
fn put_cell(on: &Netlist<'_>, cell: u32, pins: &mut PinMap<NetRef>) -> Result<(), Memory>
    requires ready { TellHolders on.now.device.now on.now.phys.now on.now.ends.now
        on.now.holders.now on.now.ranks.now }
    requires places { ArePlaces on.now.device.now on.now.places.now }
    requires inside { cell < length on.now.phys.now.placements }
    requires are_on { AreOn on.now.device.now on.now.phys.now pins.old }
    ensures { OnOk result (AddsPins on.now.device.now on.now.phys.now cell (λ p. Unit {0}) pins.old
        pins.new) }
{
    let placement = on.phys.placements.at(cell as usize);
    match on.device.site(placement.site) {
        None => Ok(()),
        Some(site) => {
            let at = Placed {
                cell,
                placement,
                site,
                ty: on.device.type_of(site),
            };
            put_placed(on, &at, pins)
        }
    }
}

/// The nets of the pins of all cells. `Memory` is the only error. For each cell the names of its
/// site and its BEL are hashed once, and those of its BEL pins.
pub(crate) fn pins_on_nets(alloc: Global, on: &Netlist<'_>) -> Result<PinMap<NetRef>, Memory>
    requires ready { TellHolders on.now.device.now on.now.phys.now on.now.ends.now
        on.now.holders.now on.now.ranks.now }
    requires places { ArePlaces on.now.device.now on.now.places.now }
    requires small { IsSmall on.now.phys.now }
    ensures { IfOk result (ArePins on.now.device.now on.now.phys.now
        (length on.now.phys.now.placements)) }
{
    let mut pins = PinMap::new(alloc);
    for cell in 0..on.phys.placements.len() {
        put_cell(on, cell as u32, &mut pins)?;
    }
    Ok(pins)
}
