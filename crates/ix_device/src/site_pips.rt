//! The BEL pins to which site PIPs lead.

ghost use Rattle.std.specs.Prelude.{◌≡◌, ◌<◌, ℕ, length, None, Some, nat_eq, option_map, IfOk};
ghost use Rattle.std.specs.List.{list_any};
ghost use Rattle.ix_keys.specs.Keys.{name_key};
ghost use Rattle.ix_first.specs.First.{value_at, value_of, or_later};
ghost use Rattle.ix_device.specs.Lookups.{bel_in};
ghost use Rattle.ix_device.specs.SitePips.{is_inverted_at, inverts_at};
ghost use Rattle.ix_device.specs.SitePips.{is_for_routing as is_for_routing_seen};
ghost use Rattle.ix_device.specs.SitePips.{is_routing_bel as is_routing_bel_seen};
ghost use Rattle.ix_device.specs.SitePips.{is_usable_from as is_usable_from_seen, first_from};
ghost use Rattle.ix_device.specs.SitePips.{site_pip_from as site_pip_from_seen};

use crate::filling::put_found;
use ix_first::{FirstById, FirstByKey};
use ix_keys::Key;
use ix_num::{BelId, BelPinId, Memory, NameId};
use ix_rec::{Category, Inversion, SiteType};
use std::alloc::Global;

// Marks the pin at which a signal is inverted.
fn mark(marks: &mut FirstById<()>, inversion: Inversion)
    ensures { (pin : ℕ) → value_of marks.new pin
        ≡ option_map (λ v. or_later v (is_inverted_at pin inversion) tt) (value_of marks.old pin) }
{
    if let Inversion::Inverting { inverting_pin, .. } = inversion {
        marks.put(inverting_pin.get() as usize, ());
    }
}

// The pins at which a BEL inverts.
fn inverting_pins(alloc: Global, ty: &SiteType) -> Result<FirstById<()>, Memory>
    ensures { IfOk result (λ marks. (pin : ℕ) → pin < length ty.now.bel_pins
        → value_of marks pin ≡ Some (or_later None (list_any (inverts_at pin) ty.now.bels) tt)) }
{
    let mut marks = FirstById::new(alloc, ty.bel_pins.len())?;
    for i in 0..ty.bels.len() {
        mark(&mut marks, ty.bels.at(i).inversion);
    }
    Ok(marks)
}

// Where the first site PIP from each pin leads.
fn first_pips(alloc: Global, ty: &SiteType) -> Result<FirstById<BelPinId>, Memory>
    ensures { IfOk result (λ first. (pin : ℕ) → pin < length ty.now.bel_pins
        → value_of first pin ≡ Some (first_from pin ty.now.site_pips)) }
{
    let mut first = FirstById::new(alloc, ty.bel_pins.len())?;
    for i in 0..ty.site_pips.len() {
        let pip = ty.site_pips.at(i);
        first.put(pip.inpin.get() as usize, pip.outpin);
    }
    Ok(first)
}

fn is_for_routing(category: Category) -> bool
    ensures { result ≡ is_for_routing_seen category }
{
    match category {
        Category::Routing => true,
        Category::Logic | Category::SitePort => false,
    }
}

// Whether the BEL of this name is for routing.
fn is_routing_bel(ty: &SiteType, bels: &FirstByKey<BelId>, name: NameId) -> bool
    requires { (name : ℕ) → value_at bels.now (name_key name) ≡ bel_in name ty.now }
    ensures { result ≡ is_routing_bel_seen ty.now name }
{
    match bels.get(Key::of_name(name.get())) {
        Some(bel) => is_for_routing(ty.bels.at(bel.get() as usize).category),
        None => false,
    }
}

// Where the first site PIP from a pin leads; none where it can't be used.
fn site_pip_from(
    ty: &SiteType,
    bels: &FirstByKey<BelId>,
    marks: &FirstById<()>,
    first: &FirstById<BelPinId>,
    pin: usize,
) -> Option<BelPinId>
    requires within { pin < length ty.now.bel_pins }
    requires bels { (name : ℕ) → value_at bels.now (name_key name) ≡ bel_in name ty.now }
    requires marks { value_of marks.now pin
        ≡ Some (or_later None (list_any (inverts_at pin) ty.now.bels) tt) }
    requires first { value_of first.now pin ≡ Some (first_from pin ty.now.site_pips) }
    ensures { result ≡ site_pip_from_seen pin ty.now }
{
    if marks.get(pin).is_some() || !is_routing_bel(ty, bels, ty.bel_pins.at(pin).bel) {
        return None;
    }
    first.get(pin)
}

/// Where the first site PIP from each BEL pin of a site type leads; none where it can't be used.
pub(crate) fn site_pips_from_pins(
    alloc: Global,
    ty: &SiteType,
    bels: &FirstByKey<BelId>,
) -> Result<FirstById<BelPinId>, Memory>
    requires { (name : ℕ) → value_at bels.now (name_key name) ≡ bel_in name ty.now }
    ensures { IfOk result (λ pips. (pin : ℕ) → pin < length ty.now.bel_pins
        → value_of pips pin ≡ Some (site_pip_from_seen pin ty.now)) }
{
    let marks = inverting_pins(alloc, ty)?;
    let first = first_pips(alloc, ty)?;
    let mut pips = FirstById::new(alloc, ty.bel_pins.len())?;
    for pin in 0..ty.bel_pins.len() {
        put_found(&mut pips, pin, site_pip_from(ty, bels, &marks, &first, pin));
    }
    Ok(pips)
}
