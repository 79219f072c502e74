//! The pin map of a cell on its place.

ghost use Rattle.std.specs.Prelude.{◌≡◌, Some, true, map, IfOk};
ghost use Rattle.std.specs.List.Sorted.{IsPermutation, IsNonDecreasingBy};
ghost use Rattle.ix_device.specs.Lookups.{type_of_site};
ghost use Rattle.ix_device.specs.PinsListed.{pins_listed};
ghost use Rattle.ix_first_fit.specs.Spots.{admits};
ghost use Rattle.ix_first_fit.specs.Netlist.{pin_told, pin_in, IsPinMap};

use crate::cell::Spot;
use ix_device::{Device, PinList};
use ix_num::{BelPinId, Memory, NameId, SiteTypeId};
use ix_rec::{Items, PinMapping, SiteType};
use std::alloc::Global;

// The pins of a list, by rising BEL pin number.
fn sorted_pins(alloc: Global, pins: &PinList<'_>) -> Result<Items<(NameId, BelPinId)>, Memory>
    ensures same { IfOk result (λ sorted. IsPermutation (pins_listed pins.now) sorted) }
    ensures rises { IfOk result (λ sorted. IsNonDecreasingBy (λ pin. pin.1) sorted) }
{
    let mut sorted = Vec::new(alloc);
    for i in 0..pins.len() {
        sorted.push(pins.at(i))?;
    }
    sorted.sort_by_key(|pin| pin.1.get())?;
    Ok(Items::from_vec(sorted))
}

// The names of a cell pin and of a pin of a BEL of a site type.
fn named_pin(ty: &SiteType, bel: NameId, pin: &(NameId, BelPinId)) -> Result<PinMapping, Memory>
    ensures { IfOk result (λ named. pin_told named ≡ pin_in ty.now bel pin.now) }
{
    match ty.bel_pins.as_slice().get(pin.1.get() as usize) {
        // Pins of a list are pins of the site type.
        None => Err(Memory),
        Some(bel_pin) => Ok(PinMapping {
            cell_pin: pin.0,
            bel,
            bel_pin: bel_pin.name,
        }),
    }
}

// The same of several pins.
fn named_pins(
    alloc: Global,
    ty: &SiteType,
    bel: NameId,
    pins: &Items<(NameId, BelPinId)>,
) -> Result<Items<PinMapping>, Memory>
    ensures { IfOk result (λ named. map pin_told named
        ≡ map (λ pin. pin_in ty.now bel pin) pins.now) }
{
    let mut named = Items::new(alloc);
    for i in 0..pins.len() {
        named.push(named_pin(ty, bel, pins.at(i))?)?;
    }
    Ok(named)
}

/// All pins by which a place takes a cell type, by rising BEL pin number.
pub(crate) fn pin_map(
    alloc: Global,
    device: &Device,
    ty: NameId,
    spot: &Spot,
    t: SiteTypeId,
    bel: NameId,
) -> Result<Items<PinMapping>, Memory>
    requires admitted { admits device.now ty spot.now ≡ true }
    requires ty { type_of_site device.now spot.now.site ≡ Some t }
    ensures { IfOk result (IsPinMap device.now ty spot.now bel) }
{
    let site_type = device.rec().site_type_list.at(t.get() as usize);
    match device.pins_of(ty, t, spot.bel) {
        // The place admits the type.
        None => Err(Memory),
        Some(pins) => {
            let sorted = sorted_pins(alloc, &pins)?;
            named_pins(alloc, site_type, bel, &sorted)
        }
    }
}
