//! The constants that BEL pins can drive.

ghost use Rattle.std.specs.Prelude.{◌≡◌, ◌<◌, ℕ, length, None, Some, IfOk, OnOk};
ghost use Rattle.std.specs.Option.{option_or};
ghost use Rattle.ix_keys.specs.declared.key.Key.{Key as KeySeen};
ghost use Rattle.ix_keys.specs.Keys.{key};
ghost use Rattle.ix_first.specs.First.{value_at, value_of};
ghost use Rattle.ix_device.specs.Lookups.{pin_of_bel};
ghost use Rattle.ix_device.specs.Sources.{constant_of as constant_seen, if_named};
ghost use Rattle.ix_device.specs.NamedSources.{is_under, first_that, named_source};
ghost use Rattle.ix_device.specs.NamedSources.{source_of_pin as source_told};

use crate::filling::put_found;
use ix_first::{FirstById, FirstByKey};
use ix_keys::Key;
use ix_num::{BelPinId, Constant, Memory};
use ix_rec::{ConstantPreference, DeviceRec, Items, SiteConstantSource, SiteType};
use std::alloc::Global;

// The constant that is preferred.
fn constant_of(preference: ConstantPreference) -> Option<Constant>
    ensures { result ≡ constant_seen preference }
{
    match preference {
        ConstantPreference::NoPreference => None,
        ConstantPreference::Gnd => Some(Constant::Gnd),
        ConstantPreference::Vcc => Some(Constant::Vcc),
    }
}

// Puts an entry's constant under its names.
fn put_source(table: &mut FirstByKey<Constant>, entry: &SiteConstantSource) -> Result<(), Memory>
    ensures { OnOk result ((q : KeySeen) → value_at table.new q
        ≡ option_or (value_at table.old q) (if_named (is_under q entry.now)
        (constant_seen entry.now.constant) None)) }
{
    if let Some(constant) = constant_of(entry.constant) {
        let key = Key::new(entry.site_type.get(), entry.bel.get(), entry.bel_pin.get());
        table.put(key, constant)?;
    }
    Ok(())
}

// Puts the constants of all entries.
fn put_sources(
    table: &mut FirstByKey<Constant>,
    entries: &Items<SiteConstantSource>,
) -> Result<(), Memory>
    ensures { OnOk result ((q : KeySeen) → value_at table.new q
        ≡ option_or (value_at table.old q) (first_that (is_under q) entries.now)) }
{
    for i in 0..entries.len() {
        put_source(table, entries.at(i))?;
    }
    Ok(())
}

/// The constants that BEL pins can drive, by the names of site type, BEL and pin.
pub(crate) fn source_table(alloc: Global, rec: &DeviceRec) -> Result<FirstByKey<Constant>, Memory>
    ensures { IfOk result (λ table. (q : KeySeen) → value_at table q ≡ named_source rec.now q) }
{
    let mut table = FirstByKey::new(alloc);
    if let Some(constants) = &rec.constants {
        put_sources(&mut table, &constants.site_sources)?;
    }
    Ok(table)
}

// The constant that the BEL pin of this number can drive. The first pin of its names has it.
fn source_of_pin(
    ty: &SiteType,
    numbers: &FirstByKey<BelPinId>,
    table: &FirstByKey<Constant>,
    pin: usize,
) -> Option<Constant>
    requires within { pin < length ty.now.bel_pins }
    requires numbers { (bel name : ℕ) → value_at numbers.now (key 0 bel name)
        ≡ pin_of_bel bel name ty.now }
    ensures { result ≡ source_told table.now ty.now pin }
{
    let named = ty.bel_pins.at(pin);
    let bel = named.bel.get();
    let name = named.name.get();
    match numbers.get(Key::new(0, bel, name)) {
        Some(first) if pin == first.get() as usize => table.get(Key::new(ty.name.get(), bel, name)),
        _ => None,
    }
}

/// The constant that each BEL pin of a site type can drive.
pub(crate) fn sources_of_pins(
    alloc: Global,
    ty: &SiteType,
    numbers: &FirstByKey<BelPinId>,
    table: &FirstByKey<Constant>,
) -> Result<FirstById<Constant>, Memory>
    requires { (bel name : ℕ) → value_at numbers.now (key 0 bel name) ≡ pin_of_bel bel name ty.now }
    ensures { IfOk result (λ sources. (pin : ℕ) → pin < length ty.now.bel_pins
        → value_of sources pin ≡ Some (source_told table.now ty.now pin)) }
{
    let mut sources = FirstById::new(alloc, ty.bel_pins.len())?;
    for pin in 0..ty.bel_pins.len() {
        put_found(&mut sources, pin, source_of_pin(ty, numbers, table, pin));
    }
    Ok(sources)
}
