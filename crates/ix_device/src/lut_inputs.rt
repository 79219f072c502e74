//! The inputs that the BELs of a site type have in usable LUT elements.

ghost use Rattle.std.specs.Prelude.{◌≡◌, ◌<◌, ℕ, Some, length, IfOk};
ghost use Rattle.ix_first.specs.First.{value_of};
ghost use Rattle.ix_device_rules.specs.Rules.{elements_for};
ghost use Rattle.ix_device.specs.Pins.{ArePins};
ghost use Rattle.ix_device.specs.Places.{ArePlaces, usable_inputs};

use crate::element_places::{ElementPlace, place_of_bel};
use crate::filling::put_found;
use crate::usable::{Pins, is_usable};
use ix_first::{FirstById, FirstByKey, number_of};
use ix_num::Memory;
use ix_rec::DeviceRec;
use std::alloc::Global;

// How many inputs the BEL of this number has; none where it isn't in a usable element.
fn inputs_of_bel(
    alloc: Global,
    rec: &DeviceRec,
    pins: &Pins<'_>,
    places: &FirstByKey<ElementPlace>,
    bel: usize,
) -> Result<Option<u32>, Memory>
    requires pins { ArePins pins.now }
    requires places { ArePlaces rec.now.lut_definitions.lut_elements (λ ty.
        elements_for ty rec.now.lut_definitions.lut_elements) places.now }
    requires within { bel < length pins.now.ty.now.bels }
    ensures { IfOk result (λ inputs. inputs ≡ usable_inputs rec.now pins.now.ty.now bel) }
{
    match place_of_bel(places, pins.ty, bel) {
        None => Ok(None),
        Some(place) => {
            let entry = rec.lut_definitions.lut_elements.at(place.entry as usize);
            let element = entry.luts.at(place.lut as usize);
            if !is_usable(alloc, pins, element)? {
                return Ok(None);
            }
            let inputs = element.bels.at(place.place as usize).input_pins.len();
            Ok(Some(number_of(inputs)?))
        }
    }
}

/// How many inputs each BEL of a site type has; none where it isn't in a usable element.
pub(crate) fn inputs_of_bels(
    alloc: Global,
    rec: &DeviceRec,
    pins: &Pins<'_>,
    places: &FirstByKey<ElementPlace>,
) -> Result<FirstById<u32>, Memory>
    requires pins { ArePins pins.now }
    requires places { ArePlaces rec.now.lut_definitions.lut_elements (λ ty.
        elements_for ty rec.now.lut_definitions.lut_elements) places.now }
    ensures { IfOk result (λ inputs. (bel : ℕ) → bel < length pins.now.ty.now.bels
        → value_of inputs bel ≡ Some (usable_inputs rec.now pins.now.ty.now bel)) }
{
    let mut inputs = FirstById::new(alloc, pins.ty.bels.len())?;
    for bel in 0..pins.ty.bels.len() {
        let found = inputs_of_bel(alloc, rec, pins, places, bel)?;
        put_found(&mut inputs, bel, found);
    }
    Ok(inputs)
}
