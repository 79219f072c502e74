//! Rule L3: the first placement whose pin map doesn't fit.

ghost use Rattle.std.specs.Prelude.{◌≡◌, ◌<◌, ◌+◌, ◌↔◌, Some, length, option_map, IsTrue, IsSome};
ghost use Rattle.std.specs.Prelude.{IfOk, IfSome};
ghost use Rattle.std.specs.List.{All};
ghost use Rattle.ix_legal.specs.Sites.{pins_at, lut_cell_of};
ghost use Rattle.ix_legal.specs.Legal.{IsSound};
ghost use Rattle.ix_legal.specs.Placements.{IsPlaced, MapsPins, PinMapFits};
ghost use Rattle.ix_legal.specs.Spots.{Everywhere, Tells};
ghost use Rattle.ix_lut_tables.specs.Tables.{HasFewInputs};
ghost use Rattle.ix_lut_places.specs.Places.{ArePlaces};
ghost use Rattle.ix_pin_maps.specs.Marks.{AreOlder};
ghost use Rattle.ix_pin_maps.specs.Entries.{bel_place, IsBel, InputsFit};

use crate::entries::{CellOnBel, TypedBel, all_fit};
use crate::inputs::input_places;
use crate::marks::{Mark, no_marks, put_pins};
use ix_device::Device;
use ix_legal::Spot;
use ix_lut_places::LutPlaces;
use ix_num::Memory;
use ix_rec::{CellPlacement, LutCell, Phys};
use ix_strings::Names;
use std::alloc::Global;

// The site type of a placement's site, and the BEL in it; none exactly where it isn't there.
fn bel_of(device: &Device, placement: &CellPlacement) -> Option<TypedBel>
    ensures place { option_map (λ p. (p.ty, p.bel)) result
        ≡ bel_place device.now placement.now.site placement.now.bel }
    ensures inside { IfSome result (λ p. IsBel device.now p.ty p.bel) }
{
    let site = device.site(placement.site)?;
    let ty = device.type_of(site);
    let bel = device.bel(ty, placement.bel)?;
    Some(TypedBel { ty, bel })
}

// Whether each input of a LUT is mapped once, and to an input of its own of the BEL.
fn inputs_fit(
    device: &Device,
    places: &LutPlaces,
    at: TypedBel,
    lut: Option<&LutCell>,
    placement: &CellPlacement,
) -> bool
    requires places { ArePlaces device.now places.now }
    requires place { bel_place device.now placement.now.site placement.now.bel
        ≡ Some (at.ty, at.bel) }
    requires bel { IsBel device.now at.ty at.bel }
    requires lut { option_map (λ l. l.now) lut ≡ lut_cell_of device.now placement.now.ty }
    requires few { IfSome lut (λ l. HasFewInputs l.now) }
    requires placed { IsSome (pins_at device.now placement.now.ty placement.now.site
        placement.now.bel) }
    ensures { IsTrue result
        ↔ InputsFit device.now placement.now (lut_cell_of device.now placement.now.ty) }
{
    match lut {
        None => true,
        Some(lut) => match places.bel(device, at.ty, at.bel) {
            None => false,
            Some(bel) => input_places(lut, bel, placement).is_some(),
        },
    }
}

// Whether the pin map of a placement on this BEL fits.
fn fits_on(
    device: &Device,
    places: &LutPlaces,
    marks: &mut [Mark],
    turn: u32,
    at: TypedBel,
    placement: &CellPlacement,
) -> bool
    requires places { ArePlaces device.now places.now }
    requires place { bel_place device.now placement.now.site placement.now.bel
        ≡ Some (at.ty, at.bel) }
    requires bel { IsBel device.now at.ty at.bel }
    requires placed { IsSome (pins_at device.now placement.now.ty placement.now.site
        placement.now.bel) }
    requires named { All (λ e. e.cell_pin < length marks.old) placement.now.pin_map }
    requires older { AreOlder turn marks.old }
    ensures fits { IsTrue result ↔ PinMapFits device.now placement.now }
    ensures older { AreOlder (turn + 1) marks.new }
{
    // The BEL admits the cell that is placed on it.
    let Some(pins) = device.pins_of(placement.ty, at.ty, at.bel) else {
        return false;
    };
    put_pins(marks, turn, &pins);
    let lut = places.cell(device, placement.ty);
    let on = CellOnBel {
        device,
        ty: at.ty,
        bel: at.bel,
        marks,
        turn,
    };
    all_fit(&on, lut, placement) && inputs_fit(device, places, at, lut, placement)
}

// Whether the pin map of a placement fits.
fn fits(
    device: &Device,
    places: &LutPlaces,
    marks: &mut [Mark],
    turn: u32,
    placement: &CellPlacement,
) -> bool
    requires places { ArePlaces device.now places.now }
    requires placed { IsSome (pins_at device.now placement.now.ty placement.now.site
        placement.now.bel) }
    requires named { All (λ e. e.cell_pin < length marks.old) placement.now.pin_map }
    requires older { AreOlder turn marks.old }
    ensures fits { IsTrue result ↔ PinMapFits device.now placement.now }
    ensures older { AreOlder (turn + 1) marks.new }
{
    match bel_of(device, placement) {
        Some(at) => fits_on(device, places, marks, turn, at, placement),
        // The cell is placed, so there is a BEL.
        None => false,
    }
}

/// The first placement whose pin map doesn't fit the device: an entry isn't of the cell's own BEL,
/// or isn't one of the device's pin map for the cell type there, or an input of a LUT isn't mapped
/// once, and to an input of its own of the LUT BEL; none exactly where rule L3 is kept. `Memory` is
/// the only error. It takes 8 bytes a name.
///
/// For each placement the device's pin map is walked once, and the placement's own once, and once
/// more for each input of a LUT.
pub fn first_misfit(
    alloc: Global,
    device: &Device,
    places: &LutPlaces,
    phys: &Phys,
    names: &Names,
) -> Result<Option<Spot>, Memory>
    requires sound { IsSound names.now phys.now }
    requires placed { Everywhere (IsPlaced device.now phys.now) }
    requires places { ArePlaces device.now places.now }
    ensures told { IfOk result (Tells (MapsPins device.now phys.now)) }
{
    let mut marks = no_marks(alloc, names.len())?;
    for i in 0..phys.placements.len() {
        let place = i as u32;
        if !fits(device, places, &mut marks, place + 1, phys.placements.at(i)) {
            return Ok(Some(Spot::PlacementAt(place)));
        }
    }
    Ok(None)
}
