//! Where a LUT is placed.

ghost use Rattle.std.specs.Prelude.{◌≡◌, IfSome, IfNone, ℕ};
ghost use Rattle.ix_rec.specs.declared.device.LutCell.{LutCell as CellSeen};
ghost use Rattle.ix_legal.specs.LutTables.{IsLutOn};
ghost use Rattle.ix_lut.specs.Places.{LutPlace};
ghost use Rattle.ix_lut_places.specs.Places.{ArePlaces};
ghost use Rattle.ix_placed_luts.specs.Placed.{IsPlaced};

use ix_device::Device;
use ix_lut::ElementShape;
use ix_lut_places::LutPlaces;
use ix_num::{BelId, SiteId, SiteTypeId};
use ix_pin_maps::{InputPlaces, input_places};
use ix_rec::{CellPlacement, LutBel};

/// A LUT on a BEL of an element.
#[derive(Drop)]
pub struct PlacedLut<'a> {
    /// The site.
    pub site: SiteId,
    /// Its type.
    pub ty: SiteTypeId,
    /// The BEL.
    pub bel: BelId,
    /// The BEL as its element lists it.
    pub lut_bel: &'a LutBel,
    /// The element.
    pub shape: ElementShape,
    /// The BEL's place in it.
    pub place: u32,
    /// The places of the LUT's inputs among the BEL's.
    pub inputs: InputPlaces,
}

/// The LUT that is placed, by number; none exactly where the cell is no LUT, its BEL is in no usable element,
/// or its pin map doesn't have its inputs.
pub fn placed_lut<'a>(
    device: &'a Device,
    places: &LutPlaces,
    placement: &CellPlacement,
) -> Option<PlacedLut<'a>>
    requires { ArePlaces device.now places.now }
    ensures placed { IfSome result (λ f. IsPlaced device.now placement.now f.site f.ty f.bel
        f.lut_bel.now f.shape f.place f.inputs) }
    ensures none { IfNone result ((lut : CellSeen) (element place : ℕ) (on : LutPlace)
        → IsLutOn device.now placement.now lut element place on → ⊥) }
{
    let lut = places.cell(device, placement.ty)?;
    let site = device.site(placement.site)?;
    let ty = device.type_of(site);
    let bel = device.bel(ty, placement.bel)?;
    let (element, place) = device.element_of(ty, bel)?;
    let shape = device.shape(ty, element)?;
    let lut_bel = places.bel(device, ty, bel)?;
    let inputs = input_places(lut, lut_bel, placement)?;
    Some(PlacedLut {
        site,
        ty,
        bel,
        lut_bel,
        shape,
        place,
        inputs,
    })
}
