//! Which pin map lists a BEL for a cell type.

ghost use Rattle.std.specs.Prelude.{◌≡◌, ◌&&◌, ℕ, [], ◌∷◌, nat_eq, is_some, map, slice_get, Some};
ghost use Rattle.std.specs.Prelude.{IfOk, OnOk};
ghost use Rattle.std.specs.List.{list_any, list_all, position};
ghost use Rattle.ix_keys.specs.declared.key.Key.{Key as KeySeen};
ghost use Rattle.ix_keys.specs.Keys.{key, name_key, key_eq};
ghost use Rattle.ix_first.specs.First.{value_at, or_later};
ghost use Rattle.ix_device_rules.specs.Rules.{has_pin};
ghost use Rattle.ix_device.specs.Lookups.{pin_of_bel};
ghost use Rattle.ix_device.specs.Elements.{differ};
ghost use Rattle.ix_device.specs.Admission.{pins_differ};
ghost use Rattle.ix_device.specs.Listed.{listing, names_one, PutsMap, PutsMapping, AreListings};
ghost use Rattle.ix_device.specs.Premises.{TypesDiffer, FindPins};

use crate::types::TypeTables;
use ix_first::{FirstByKey, number_of};
use ix_keys::Key;
use ix_num::{BelPinId, Memory, NameId, SiteTypeId};
use ix_rec::{CellBelMapping, CellBelPinEntry, Items, SiteType, SiteTypeBelEntry};
use std::alloc::Global;

/// The first pin map that lists a BEL for a cell type.
#[derive(Clone, Copy)]
pub(crate) struct Listing {
    /// The place of the cell type in the device's map of cells to BELs.
    pub mapping: u32,
    /// The place of the pin map among those of the cell type.
    pub pin_map: u32,
    /// Whether the map names no pin twice and only pins of the BEL.
    pub fits: bool,
}

// Whether the BEL has a pin of this name.
#[tactic(auto, using(crate::proofs::FirstPlaces::is_some_position))]
fn has_pin(t: &SiteType, bel_pins: &FirstByKey<BelPinId>, bel: NameId, pin: NameId) -> bool
    requires { (b p : ℕ) → value_at bel_pins.now (key 0 b p) ≡ pin_of_bel b p t.now }
    ensures { result ≡ has_pin t.now bel pin }
{
    let pin = bel_pins.get(Key::new(0, bel.get(), pin.get()));
    pin.is_some()
}

// Whether each BEL pin of a map is a pin of this BEL.
fn are_pins_of(
    t: &SiteType,
    bel_pins: &FirstByKey<BelPinId>,
    bel: NameId,
    pins: &Items<CellBelPinEntry>,
) -> bool
    requires { (b p : ℕ) → value_at bel_pins.now (key 0 b p) ≡ pin_of_bel b p t.now }
    ensures { result ≡ list_all (λ p. has_pin t.now bel p.bel_pin) pins.now }
{
    for i in 0..pins.len() {
        if !has_pin(t, bel_pins, bel, pins.at(i).bel_pin) {
            return false;
        }
    }
    true
}

// Whether a map names no cell pin twice.
fn cell_pins_differ(alloc: Global, pins: &Items<CellBelPinEntry>) -> Result<bool, Memory>
    ensures { IfOk result (λ yes. yes ≡ differ (map (λ p. p.cell_pin) pins.now)) }
{
    let mut names = FirstByKey::new(alloc);
    for i in 0..pins.len() {
        if !names.put(Key::of_name(pins.at(i).cell_pin.get()), ())? {
            return Ok(false);
        }
    }
    Ok(true)
}

// Whether a map names no BEL pin twice.
fn bel_pins_differ(alloc: Global, pins: &Items<CellBelPinEntry>) -> Result<bool, Memory>
    ensures { IfOk result (λ yes. yes ≡ differ (map (λ p. p.bel_pin) pins.now)) }
{
    let mut names = FirstByKey::new(alloc);
    for i in 0..pins.len() {
        if !names.put(Key::of_name(pins.at(i).bel_pin.get()), ())? {
            return Ok(false);
        }
    }
    Ok(true)
}

// A pin map of a cell type, by its places, and whether it names no pin twice.
#[derive(Clone, Copy)]
struct CellPinMap {
    cell: NameId,
    mapping: u32,
    pin_map: u32,
    differ: bool,
}

// Whether a pin map names no pin twice and only pins of this BEL.
fn fits_bel(
    map: &CellPinMap,
    t: &SiteType,
    bel_pins: &FirstByKey<BelPinId>,
    bel: NameId,
    pins: &Items<CellBelPinEntry>,
) -> bool
    requires { (b p : ℕ) → value_at bel_pins.now (key 0 b p) ≡ pin_of_bel b p t.now }
    ensures { result ≡ (map.now.differ && list_all (λ p. has_pin t.now bel p.bel_pin) pins.now) }
{
    map.differ && are_pins_of(t, bel_pins, bel, pins)
}

// Puts a pin map's listing of a BEL of a site type, where it has none yet. The pins are looked at
// only then.
fn put_bel(
    table: &mut FirstByKey<Listing>,
    map: &CellPinMap,
    pins: &Items<CellBelPinEntry>,
    owner: SiteTypeId,
    t: &SiteType,
    bel_pins: &FirstByKey<BelPinId>,
    bel: NameId,
) -> Result<(), Memory>
    requires { (b p : ℕ) → value_at bel_pins.now (key 0 b p) ≡ pin_of_bel b p t.now }
    ensures { OnOk result ((q : KeySeen) → value_at table.new q
        ≡ or_later (value_at table.old q) (key_eq (key owner bel map.now.cell) q)
        (listing map.now.mapping map.now.pin_map (map.now.differ
        && list_all (λ p. has_pin t.now bel p.bel_pin) pins.now))) }
{
    let key = Key::new(owner.get(), bel.get(), map.cell.get());
    if table.get(key).is_some() {
        return Ok(());
    }
    let found = Listing {
        mapping: map.mapping,
        pin_map: map.pin_map,
        fits: fits_bel(map, t, bel_pins, bel, pins),
    };
    table.put(key, found)?;
    Ok(())
}

// Puts a pin map's listing of these BELs of a site type, for each that has none yet.
fn put_bels(
    table: &mut FirstByKey<Listing>,
    map: &CellPinMap,
    pins: &Items<CellBelPinEntry>,
    owner: SiteTypeId,
    t: &SiteType,
    bel_pins: &FirstByKey<BelPinId>,
    bels: &Items<NameId>,
) -> Result<(), Memory>
    requires { (b p : ℕ) → value_at bel_pins.now (key 0 b p) ≡ pin_of_bel b p t.now }
    ensures { OnOk result ((q : KeySeen) → value_at table.new q
        ≡ or_later (value_at table.old q) (names_one owner map.now.cell bels.now q)
        (listing map.now.mapping map.now.pin_map (map.now.differ
        && list_all (λ p. has_pin t.now q.part p.bel_pin) pins.now))) }
{
    for i in 0..bels.len() {
        put_bel(table, map, pins, owner, t, bel_pins, *bels.at(i))?;
    }
    Ok(())
}

// Puts a pin map's listings of the BELs of one entry. An entry of a site type that isn't there is
// without effect.
fn put_entry(
    table: &mut FirstByKey<Listing>,
    map: &CellPinMap,
    pins: &Items<CellBelPinEntry>,
    entry: &SiteTypeBelEntry,
    site_types: &FirstByKey<SiteTypeId>,
    types: &Items<SiteType>,
    tables: &Items<TypeTables>,
) -> Result<(), Memory>
    requires differ { TypesDiffer types.now }
    requires named { (name : ℕ) → value_at site_types.now (name_key name)
        ≡ position (λ t. nat_eq t.name name) types.now }
    requires find { FindPins types.now tables.now }
    ensures { OnOk result (PutsMap types.now table.old table.new map.now (entry.now ∷ [])
        pins.now) }
{
    match site_types.get(Key::of_name(entry.site_type.get())) {
        None => Ok(()),
        Some(owner) => {
            let place = owner.get() as usize;
            let t = types.at(place);
            let bel_pins = &tables.at(place).bel_pins;
            put_bels(table, map, pins, owner, t, bel_pins, &entry.bels)?;
            Ok(())
        }
    }
}

// Puts a pin map's listings of the BELs of these entries.
fn put_map(
    table: &mut FirstByKey<Listing>,
    map: &CellPinMap,
    pins: &Items<CellBelPinEntry>,
    entries: &Items<SiteTypeBelEntry>,
    site_types: &FirstByKey<SiteTypeId>,
    types: &Items<SiteType>,
    tables: &Items<TypeTables>,
) -> Result<(), Memory>
    requires differ { TypesDiffer types.now }
    requires named { (name : ℕ) → value_at site_types.now (name_key name)
        ≡ position (λ t. nat_eq t.name name) types.now }
    requires find { FindPins types.now tables.now }
    ensures { OnOk result (PutsMap types.now table.old table.new map.now entries.now pins.now) }
{
    for i in 0..entries.len() {
        put_entry(table, map, pins, entries.at(i), site_types, types, tables)?;
    }
    Ok(())
}

// Whether a pin map names no pin twice.
fn pins_differ(alloc: Global, pins: &Items<CellBelPinEntry>) -> Result<bool, Memory>
    ensures { IfOk result (λ yes. yes ≡ pins_differ pins.now) }
{
    if !cell_pins_differ(alloc, pins)? {
        return Ok(false);
    }
    bel_pins_differ(alloc, pins)
}

// Puts the listings of a cell type's pin maps.
fn put_mapping(
    alloc: Global,
    table: &mut FirstByKey<Listing>,
    place: u32,
    mapping: &CellBelMapping,
    site_types: &FirstByKey<SiteTypeId>,
    types: &Items<SiteType>,
    tables: &Items<TypeTables>,
) -> Result<(), Memory>
    requires differ { TypesDiffer types.now }
    requires named { (name : ℕ) → value_at site_types.now (name_key name)
        ≡ position (λ t. nat_eq t.name name) types.now }
    requires find { FindPins types.now tables.now }
    ensures { OnOk result (PutsMapping types.now table.old table.new place mapping.now.cell
        mapping.now.common_pins) }
{
    for i in 0..mapping.common_pins.len() {
        let found = mapping.common_pins.at(i);
        let map = CellPinMap {
            cell: mapping.cell,
            mapping: place,
            pin_map: number_of(i)?,
            differ: pins_differ(alloc, &found.pins)?,
        };
        put_map(
            table,
            &map,
            &found.pins,
            &found.site_types,
            site_types,
            types,
            tables,
        )?;
    }
    Ok(())
}

/// The first pin map that lists each BEL for each cell type, under the site type's number, the
/// BEL's name and the cell type's. Of several mappings of one cell type the first counts.
pub(crate) fn listings(
    alloc: Global,
    mappings: &Items<CellBelMapping>,
    site_types: &FirstByKey<SiteTypeId>,
    types: &Items<SiteType>,
    tables: &Items<TypeTables>,
) -> Result<FirstByKey<Listing>, Memory>
    requires differ { TypesDiffer types.now }
    requires named { (name : ℕ) → value_at site_types.now (name_key name)
        ≡ position (λ t. nat_eq t.name name) types.now }
    requires find { FindPins types.now tables.now }
    ensures { IfOk result (λ table. AreListings types.now table mappings.now) }
{
    let mut seen = FirstByKey::new(alloc);
    let mut table = FirstByKey::new(alloc);
    for i in 0..mappings.len() {
        let mapping = mappings.at(i);
        let place = number_of(i)?;
        if seen.put(Key::of_name(mapping.cell.get()), ())? {
            put_mapping(alloc, &mut table, place, mapping, site_types, types, tables)?;
        }
    }
    Ok(table)
}
