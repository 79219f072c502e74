//! The parts of a site type, by name and by number.

ghost use Rattle.std.specs.Prelude.{◌≡◌, ◌<◌, ℕ, Some, length, option_map, nat_eq, IfOk};
ghost use Rattle.std.specs.List.{list_any};
ghost use Rattle.ix_keys.specs.declared.key.Key.{Key as KeySeen};
ghost use Rattle.ix_keys.specs.Keys.{key, name_key};
ghost use Rattle.ix_first.specs.First.{value_at, value_of, or_later};
ghost use Rattle.ix_device_rules.specs.Rules.{elements_for};
ghost use Rattle.ix_device.specs.Lookups.{bel_in, pin_of_bel, site_pin_in, wire_in};
ghost use Rattle.ix_device.specs.NamedSources.{named_source};
ghost use Rattle.ix_device.specs.Places.{ArePlaces};
ghost use Rattle.ix_device.specs.TypeTables.{AreTypeTables, AreAllTypeTables};

use crate::element_places::{ElementPlace, element_places, elements_of_bels};
use crate::lut_inputs::inputs_of_bels;
use crate::site_pips::site_pips_from_pins;
use crate::site_sources::{source_table, sources_of_pins};
use crate::usable::Pins;
use ix_first::{FirstById, FirstByKey, number_of};
use ix_keys::Key;
use ix_num::{BelId, BelPinId, Constant, Memory, SitePinId, SiteWireId};
use ix_rec::{DeviceRec, Items, SiteType};
use std::alloc::Global;

/// What is told of the parts of a site type, by name and by number.
#[derive(Drop)]
pub(crate) struct TypeTables {
    /// The BELs by name.
    pub bels: FirstByKey<BelId>,
    /// The BEL pins by the names of their BELs and their own.
    pub bel_pins: FirstByKey<BelPinId>,
    /// The site pins by name.
    pub site_pins: FirstByKey<SitePinId>,
    /// The site wire of each BEL pin.
    pub wires: FirstById<SiteWireId>,
    /// The place of each BEL in a LUT element: the element's number, and the place in it.
    pub elements: FirstById<(u32, u32)>,
    /// How many inputs each BEL has in a usable LUT element.
    pub inputs: FirstById<u32>,
    /// The constant that each BEL pin can drive.
    pub sources: FirstById<Constant>,
    /// The BEL pin to which the first site PIP from each BEL pin leads, where that PIP can be used.
    pub site_pips: FirstById<BelPinId>,
}

// The BELs by name.
fn bel_numbers(alloc: Global, ty: &SiteType) -> Result<FirstByKey<BelId>, Memory>
    ensures { IfOk result (λ table. (name : ℕ)
        → value_at table (name_key name) ≡ bel_in name ty.now) }
{
    let mut table = FirstByKey::new(alloc);
    for i in 0..ty.bels.len() {
        let bel = BelId::new(number_of(i)?);
        table.put(Key::of_name(ty.bels.at(i).name.get()), bel)?;
    }
    Ok(table)
}

// The BEL pins by the names of their BELs and their own.
fn bel_pin_numbers(alloc: Global, ty: &SiteType) -> Result<FirstByKey<BelPinId>, Memory>
    ensures { IfOk result (λ table. (bel name : ℕ)
        → value_at table (key 0 bel name) ≡ pin_of_bel bel name ty.now) }
{
    let mut table = FirstByKey::new(alloc);
    for i in 0..ty.bel_pins.len() {
        let number = BelPinId::new(number_of(i)?);
        let pin = ty.bel_pins.at(i);
        table.put(Key::new(0, pin.bel.get(), pin.name.get()), number)?;
    }
    Ok(table)
}

// The site pins by name.
fn site_pin_numbers(alloc: Global, ty: &SiteType) -> Result<FirstByKey<SitePinId>, Memory>
    ensures { IfOk result (λ table. (name : ℕ)
        → value_at table (name_key name) ≡ site_pin_in name ty.now) }
{
    let mut table = FirstByKey::new(alloc);
    for i in 0..ty.pins.len() {
        let pin = SitePinId::new(number_of(i)?);
        table.put(Key::of_name(ty.pins.at(i).name.get()), pin)?;
    }
    Ok(table)
}

// Puts a site wire under each of its pins.
fn put_wire(table: &mut FirstById<SiteWireId>, wire: SiteWireId, pins: &Items<BelPinId>)
    ensures { (pin : ℕ) → value_of table.new pin
        ≡ option_map (λ v. or_later v (list_any (nat_eq pin) pins.now) wire)
        (value_of table.old pin) }
{
    for i in 0..pins.len() {
        table.put(pins.at(i).get() as usize, wire);
    }
}

// The site wire of each BEL pin.
fn wires_of_pins(alloc: Global, ty: &SiteType) -> Result<FirstById<SiteWireId>, Memory>
    ensures { IfOk result (λ table. (pin : ℕ) → pin < length ty.now.bel_pins
        → value_of table pin ≡ Some (wire_in pin ty.now)) }
{
    let mut table = FirstById::new(alloc, ty.bel_pins.len())?;
    for i in 0..ty.site_wires.len() {
        let wire = SiteWireId::new(number_of(i)?);
        put_wire(&mut table, wire, &ty.site_wires.at(i).pins);
    }
    Ok(table)
}

// The tables of one site type, from the tables of all places and sources by name.
fn type_tables(
    alloc: Global,
    rec: &DeviceRec,
    ty: &SiteType,
    places: &FirstByKey<ElementPlace>,
    sources: &FirstByKey<Constant>,
) -> Result<TypeTables, Memory>
    requires places { ArePlaces rec.now.lut_definitions.lut_elements (λ ty.
        elements_for ty rec.now.lut_definitions.lut_elements) places.now }
    requires sources { (q : KeySeen) → value_at sources.now q ≡ named_source rec.now q }
    ensures { IfOk result (AreTypeTables rec.now ty.now) }
{
    let bels = bel_numbers(alloc, ty)?;
    let bel_pins = bel_pin_numbers(alloc, ty)?;
    let wires = wires_of_pins(alloc, ty)?;
    let pins = Pins {
        ty,
        numbers: &bel_pins,
        wires: &wires,
    };
    let inputs = inputs_of_bels(alloc, rec, &pins, places)?;
    let sources = sources_of_pins(alloc, ty, &bel_pins, sources)?;
    let site_pips = site_pips_from_pins(alloc, ty, &bels)?;
    Ok(TypeTables {
        bels,
        bel_pins,
        site_pins: site_pin_numbers(alloc, ty)?,
        wires,
        elements: elements_of_bels(alloc, ty, places)?,
        inputs,
        sources,
        site_pips,
    })
}

/// The tables of all site types, by number. The device's elements and sources are walked once each.
pub(crate) fn all_type_tables(alloc: Global, rec: &DeviceRec) -> Result<Items<TypeTables>, Memory>
    ensures { IfOk result (AreAllTypeTables rec.now) }
{
    let places = element_places(alloc, &rec.lut_definitions.lut_elements)?;
    let sources = source_table(alloc, rec)?;
    let mut all = Items::new(alloc);
    for i in 0..rec.site_type_list.len() {
        all.push(type_tables(alloc, rec, rec.site_type_list.at(i), &places, &sources)?)?;
    }
    Ok(all)
}
