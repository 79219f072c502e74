//! The first rule that a device breaks. Each function asks a rule where all before it are kept, and
//! then goes on to the next.

ghost use Rattle.std.specs.Prelude.{◌≡◌, [], drop, map, IfOk};
ghost use Rattle.ix_device_rules.specs.Broken.{IsBrokenBy, Shows};
ghost use Rattle.ix_device_rules.specs.Named.{site_type_key, tile_key};
ghost use Rattle.ix_device_rules.specs.Rules.{first_broken, first_of_rules, rules};
ghost use Rattle.ix_device_rules.specs.Tables.{KnowsDevice};

use crate::lut_elements_stand::lut_elements_stand;
use crate::names_differ::names_differ;
use crate::pins_have_bels::pins_have_bels;
use crate::pins_on_one_wire::pins_are_on_one_wire;
use crate::site_pins_have_wires::site_pins_have_wires;
use crate::stop::Stop;
use crate::tables::{bel_pins_of, bels_of, wires_of};
use crate::tiles_are_few::tiles_are_few;
use crate::walk::Walk;
use crate::wires_stand::wires_stand;
use ix_keys::Keys;
use ix_num::Memory;
use ix_rec::{DeviceRec, Place, Rule};
use std::alloc::Global;

/// A rule that is broken and its place, if one is.
type Breach = Option<(Rule, Place)>;

/// The device's parts by tables.
#[derive(Drop)]
struct Tables<'t> {
    bels: &'t Keys,
    pins: &'t Keys,
    wires: &'t Keys,
}

/// What a walk that ended early tells of its rule.
fn broken(rule: Rule, stop: Stop) -> Result<Breach, Memory>
    ensures { IsBrokenBy rule stop result }
{
    match stop {
        Stop::Broken(place) => Ok(Some((rule, place))),
        Stop::Memory => Err(Memory),
    }
}

/// Rows, columns and counts.
fn from_tiles(alloc: Global, rec: &DeviceRec) -> Result<Breach, Memory>
    ensures { IfOk result (Shows (first_of_rules (drop 6 (rules rec.now)))) }
{
    let mut walk = Walk::new(alloc);
    match tiles_are_few(rec, &mut walk) {
        Ok(()) => Ok(None),
        Err(stop) => broken(Rule::M7, stop),
    }
}

/// The pins of sites, and on.
fn from_site_pins(alloc: Global, rec: &DeviceRec, tables: &Tables<'_>) -> Result<Breach, Memory>
    requires { KnowsDevice rec.now tables.now.bels.now tables.now.pins.now tables.now.wires.now }
    ensures { IfOk result (Shows (first_of_rules (drop 5 (rules rec.now)))) }
{
    let mut walk = Walk::new(alloc);
    match site_pins_have_wires(rec, tables.wires, &mut walk) {
        Ok(()) => from_tiles(alloc, rec),
        Err(stop) => broken(Rule::M6, stop),
    }
}

/// LUT elements, and on.
fn from_lut_elements(
    alloc: Global,
    rec: &DeviceRec,
    tables: &Tables<'_>,
    site_types: &Keys,
) -> Result<Breach, Memory>
    requires tables { KnowsDevice rec.now tables.now.bels.now tables.now.pins.now
        tables.now.wires.now }
    requires site_types { site_types.now ≡ map site_type_key rec.now.site_type_list }
    ensures { IfOk result (Shows (first_of_rules (drop 4 (rules rec.now)))) }
{
    let mut walk = Walk::new(alloc);
    match lut_elements_stand(rec, site_types, tables.bels, tables.pins, &mut walk) {
        Ok(()) => from_site_pins(alloc, rec, tables),
        Err(stop) => broken(Rule::M5, stop),
    }
}

/// The BELs of pins, and on.
fn from_bels(
    alloc: Global,
    rec: &DeviceRec,
    tables: &Tables<'_>,
    site_types: &Keys,
) -> Result<Breach, Memory>
    requires tables { KnowsDevice rec.now tables.now.bels.now tables.now.pins.now
        tables.now.wires.now }
    requires site_types { site_types.now ≡ map site_type_key rec.now.site_type_list }
    ensures { IfOk result (Shows (first_of_rules (drop 3 (rules rec.now)))) }
{
    let mut walk = Walk::new(alloc);
    match pins_have_bels(rec, tables.bels, &mut walk) {
        Ok(()) => from_lut_elements(alloc, rec, tables, site_types),
        Err(stop) => broken(Rule::M4, stop),
    }
}

/// The pins of site wires, and on.
fn from_site_wires(
    alloc: Global,
    rec: &DeviceRec,
    tables: &Tables<'_>,
    site_types: &Keys,
) -> Result<Breach, Memory>
    requires tables { KnowsDevice rec.now tables.now.bels.now tables.now.pins.now
        tables.now.wires.now }
    requires site_types { site_types.now ≡ map site_type_key rec.now.site_type_list }
    ensures { IfOk result (Shows (first_of_rules (drop 2 (rules rec.now)))) }
{
    let mut walk = Walk::new(alloc);
    match pins_are_on_one_wire(rec, &mut walk) {
        Ok(()) => from_bels(alloc, rec, tables, site_types),
        Err(stop) => broken(Rule::M3, stop),
    }
}

/// Wires and nodes, and on.
fn from_wires(
    alloc: Global,
    rec: &DeviceRec,
    tables: &Tables<'_>,
    site_types: &Keys,
    tiles: &Keys,
) -> Result<Breach, Memory>
    requires tables { KnowsDevice rec.now tables.now.bels.now tables.now.pins.now
        tables.now.wires.now }
    requires site_types { site_types.now ≡ map site_type_key rec.now.site_type_list }
    requires tiles { tiles.now ≡ map tile_key rec.now.tile_list }
    ensures { IfOk result (Shows (first_of_rules (drop 1 (rules rec.now)))) }
{
    let mut walk = Walk::new(alloc);
    match wires_stand(rec, tiles, tables.wires, &mut walk) {
        Ok(()) => from_site_wires(alloc, rec, tables, site_types),
        Err(stop) => broken(Rule::M2, stop),
    }
}

/// Names, and on.
fn from_names(
    alloc: Global,
    rec: &DeviceRec,
    tables: &Tables<'_>,
    site_types: &mut Keys,
    tiles: &mut Keys,
) -> Result<Breach, Memory>
    requires tables { KnowsDevice rec.now tables.now.bels.now tables.now.pins.now
        tables.now.wires.now }
    requires site_types { site_types.old ≡ [] }
    requires tiles { tiles.old ≡ [] }
    ensures { IfOk result (Shows (first_of_rules (drop 0 (rules rec.now)))) }
{
    let mut walk = Walk::new(alloc);
    match names_differ(rec, tables.bels, site_types, tiles, &mut walk) {
        Ok(()) => from_wires(alloc, rec, tables, site_types, tiles),
        Err(stop) => broken(Rule::M1, stop),
    }
}

/// The rules, by these tables.
fn by_tables(alloc: Global, rec: &DeviceRec, tables: &Tables<'_>) -> Result<Breach, Memory>
    requires { KnowsDevice rec.now tables.now.bels.now tables.now.pins.now tables.now.wires.now }
    ensures { IfOk result (Shows (first_of_rules (rules rec.now))) }
{
    let mut site_types = Keys::new(alloc);
    let mut tiles = Keys::new(alloc);
    from_names(alloc, rec, tables, &mut site_types, &mut tiles)
}

/// The first rule that the device breaks, and its first place in reading order; none of a valid
/// device. Rules are asked in their order, each where all before it are kept. It takes time in
/// proportion to the record, up to hashing. Where the record has more than 2^32 - 1 structs of a
/// kind, or names in a table, `Memory` is told.
pub fn first_broken_rule(alloc: Global, rec: &DeviceRec) -> Result<Option<(Rule, Place)>, Memory>
    ensures { IfOk result (Shows (first_broken rec.now)) }
{
    let bels = bels_of(alloc, &rec.site_type_list)?;
    let pins = bel_pins_of(alloc, &rec.site_type_list)?;
    let wires = wires_of(alloc, &rec.tile_type_list)?;
    let tables = Tables {
        bels: &bels,
        pins: &pins,
        wires: &wires,
    };
    by_tables(alloc, rec, &tables)
}
