//! M4: BEL pins have their BELs, and a site PIP joins pins of one BEL.

ghost use Rattle.std.specs.Prelude.{◌≡◌};
ghost use Rattle.std.specs.List.{flat_map};
ghost use Rattle.ix_device_rules.specs.Rules.{bel_of_pin, is_same_bel, pin_has_bel};
ghost use Rattle.ix_device_rules.specs.Rules.{pip_is_of_one_bel, bels_of_pins};
ghost use Rattle.ix_device_rules.specs.Rules.{pins_have_bels as all_pins_have_bels};
ghost use Rattle.ix_device_rules.specs.Tables.{KnowsBels, EachKnown};
ghost use Rattle.ix_device_rules.specs.Walks.{Walks};

use crate::kinds::{Field, Kind};
use crate::number::number_of;
use crate::stop::Stop;
use crate::walk::Walk;
use ix_keys::{Key, Keys};
use ix_num::{BelPinId, NameId};
use ix_rec::{DeviceRec, SiteType};

/// The BELs of a site type's pins are there.
fn bel_pins_have_bels(
    site_type: &SiteType,
    number: u32,
    bels: &Keys,
    walk: &mut Walk,
) -> Result<(), Stop>
    requires { KnowsBels bels.now number site_type.now }
    ensures { Walks (flat_map (pin_has_bel site_type.now) site_type.now.bel_pins) walk.old result
        walk.new }
{
    for i in 0..site_type.bel_pins.len() {
        let pin = site_type.bel_pins.at(i);
        let has_bel = bels.has(Key::new(number, 0, pin.bel.get()));
        match walk.enter(Kind::BelPin, Field::Bel, has_bel) {
            Ok(()) => {}
            Err(stop) => return Err(stop),
        }
    }
    Ok(())
}

/// The name of a BEL pin's BEL.
#[tactic(auto, using(std::proofs::lemmas::Option::get_or_from_slice_get))]
fn bel_of(site_type: &SiteType, pin: BelPinId) -> Option<NameId>
    ensures { result ≡ bel_of_pin site_type.now pin }
{
    let place = pin.get() as usize;
    if place < site_type.bel_pins.len() {
        Some(site_type.bel_pins.at(place).bel)
    } else {
        None
    }
}

/// Whether two names of BELs are one, where both are there.
fn same_bel(a: Option<NameId>, b: Option<NameId>) -> bool
    ensures { result ≡ is_same_bel a b }
{
    match a {
        Some(a) => match b {
            Some(b) => a.get() == b.get(),
            None => true,
        },
        None => true,
    }
}

/// Each site PIP of a site type joins pins of one BEL.
fn site_pips_fit(site_type: &SiteType, walk: &mut Walk) -> Result<(), Stop>
    ensures { Walks (flat_map (pip_is_of_one_bel site_type.now) site_type.now.site_pips) walk.old
        result walk.new }
{
    for i in 0..site_type.site_pips.len() {
        let pip = site_type.site_pips.at(i);
        let fits = same_bel(bel_of(site_type, pip.inpin), bel_of(site_type, pip.outpin));
        match walk.enter(Kind::SitePip, Field::OutPin, fits) {
            Ok(()) => {}
            Err(stop) => return Err(stop),
        }
    }
    Ok(())
}

/// Both of a site type.
fn site_type_fits(
    site_type: &SiteType,
    number: u32,
    bels: &Keys,
    walk: &mut Walk,
) -> Result<(), Stop>
    requires { KnowsBels bels.now number site_type.now }
    ensures { Walks (bels_of_pins site_type.now) walk.old result walk.new }
{
    match bel_pins_have_bels(site_type, number, bels, walk) {
        Ok(()) => site_pips_fit(site_type, walk),
        Err(stop) => Err(stop),
    }
}

/// BEL pins have their BELs, and a site PIP joins pins of one BEL.
pub fn pins_have_bels(rec: &DeviceRec, bels: &Keys, walk: &mut Walk) -> Result<(), Stop>
    requires { EachKnown KnowsBels bels.now rec.now.site_type_list }
    ensures { Walks (all_pins_have_bels rec.now) walk.old result walk.new }
{
    let types = &rec.site_type_list;
    for i in 0..types.len() {
        let Ok(number) = number_of(i) else {
            return Err(Stop::Memory);
        };
        match site_type_fits(types.at(i), number, bels, walk) {
            Ok(()) => {}
            Err(stop) => return Err(stop),
        }
    }
    Ok(())
}
