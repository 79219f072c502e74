//! M1: names differ.

ghost use Rattle.std.specs.Prelude.{◌≡◌, [], ◌∷◌, ◌++◌, map, OnOk};
ghost use Rattle.ix_message.specs.Indexes.{begun, asked};
ghost use Rattle.ix_keys.specs.Keys.{key};
ghost use Rattle.ix_device_rules.specs.Named.{site_key, site_is_new, site_type_key, tile_key};
ghost use Rattle.ix_device_rules.specs.Rules.{each_by_earlier, bel_pin_names, site_pin_names};
ghost use Rattle.ix_device_rules.specs.Rules.{bel_names, wire_names, tile_type_names};
ghost use Rattle.ix_device_rules.specs.Rules.{site_type_names, tile_names};
ghost use Rattle.ix_device_rules.specs.Rules.{names_differ as all_names_differ};
ghost use Rattle.ix_device_rules.specs.Tables.{KnowsBels, EachKnown, SameKeys};
ghost use Rattle.ix_device_rules.specs.Walks.{Walks};
ghost use Rattle.std.specs.List.{flat_map};

use crate::kinds::{Field, Kind};
use crate::named::{key_of, names_differ_in};
use crate::number::number_of;
use crate::stop::Stop;
use crate::walk::Walk;
use ix_keys::{Key, Keys};
use ix_num::NameId;
use ix_rec::{BelPin, DeviceRec, Items, Site, SiteType, Tile, TileType};

/// A BEL pin's name, where it is meant within a site type.
fn pin_key(pin: &BelPin) -> Key
    ensures { result ≡ key 0 pin.now.bel pin.now.name }
{
    Key::new(0, pin.bel.get(), pin.name.get())
}

/// The names of the pins of each BEL differ.
fn bel_pins_differ(
    site_type: &SiteType,
    number: u32,
    bels: &Keys,
    walk: &mut Walk,
) -> Result<(), Stop>
    requires { KnowsBels bels.now number site_type.now }
    ensures { Walks (each_by_earlier (bel_pin_names site_type.now) site_type.now.bel_pins) walk.old
        result walk.new }
{
    let mut pins = Keys::new(walk.alloc());
    for i in 0..site_type.bel_pins.len() {
        let pin = site_type.bel_pins.at(i);
        let Ok(new) = pins.add(pin_key(pin)) else {
            return Err(Stop::Memory);
        };
        let has_bel = bels.has(Key::new(number, 0, pin.bel.get()));
        match walk.enter(Kind::BelPin, Field::Name, new | !has_bel) {
            Ok(()) => {}
            Err(stop) => return Err(stop),
        }
    }
    Ok(())
}

/// The names within a site type differ, and its own fits.
fn site_type_differs(
    site_type: &SiteType,
    number: u32,
    bels: &Keys,
    fits: bool,
    walk: &mut Walk,
) -> Result<(), Stop>
    requires { KnowsBels bels.now number site_type.now }
    ensures { Walks ((begun "SiteType" ∷ asked "SiteType" "name" fits ∷ [])
        ++ each_by_earlier (bel_pin_names site_type.now) site_type.now.bel_pins
        ++ each_by_earlier site_pin_names site_type.now.pins
        ++ each_by_earlier bel_names site_type.now.bels) walk.old result walk.new }
{
    match walk.enter(Kind::SiteType, Field::Name, fits) {
        Ok(()) => {}
        Err(stop) => return Err(stop),
    }
    match bel_pins_differ(site_type, number, bels, walk) {
        Ok(()) => {}
        Err(stop) => return Err(stop),
    }
    match names_differ_in(&site_type.pins, Kind::SitePin, Field::Name, walk) {
        Ok(()) => {}
        Err(stop) => return Err(stop),
    }
    names_differ_in(&site_type.bels, Kind::Bel, Field::Name, walk)
}

/// The names of site types differ, and those within each. The site types' names are left in the
/// table.
fn site_types_differ(
    types: &Items<SiteType>,
    bels: &Keys,
    names: &mut Keys,
    walk: &mut Walk,
) -> Result<(), Stop>
    requires bels { EachKnown KnowsBels bels.now types.now }
    requires names { names.old ≡ [] }
    ensures walks { Walks (each_by_earlier site_type_names types.now) walk.old result walk.new }
    ensures names { OnOk result (names.new ≡ map site_type_key types.now) }
{
    for i in 0..types.len() {
        let site_type = types.at(i);
        let Ok(number) = number_of(i) else {
            return Err(Stop::Memory);
        };
        let Ok(new) = names.add(key_of(site_type.name)) else {
            return Err(Stop::Memory);
        };
        match site_type_differs(site_type, number, bels, new, walk) {
            Ok(()) => {}
            Err(stop) => return Err(stop),
        }
    }
    Ok(())
}

/// The names of the wires of a tile type differ.
fn wires_differ(wires: &Items<NameId>, walk: &mut Walk) -> Result<(), Stop>
    ensures { Walks (each_by_earlier wire_names wires.now) walk.old result walk.new }
{
    let mut names = Keys::new(walk.alloc());
    for i in 0..wires.len() {
        let key = key_of(*wires.at(i));
        match walk.ask_new(Kind::TileType, Field::Wires, &mut names, key) {
            Ok(()) => {}
            Err(stop) => return Err(stop),
        }
    }
    Ok(())
}

/// The same of a tile type.
fn tile_type_differs(tile_type: &TileType, walk: &mut Walk) -> Result<(), Stop>
    ensures { Walks (tile_type_names tile_type.now) walk.old result walk.new }
{
    match walk.begin(Kind::TileType) {
        Ok(()) => wires_differ(&tile_type.wires, walk),
        Err(stop) => Err(stop),
    }
}

/// The same of each tile type.
fn tile_types_differ(types: &Items<TileType>, walk: &mut Walk) -> Result<(), Stop>
    ensures { Walks (flat_map tile_type_names types.now) walk.old result walk.new }
{
    for i in 0..types.len() {
        match tile_type_differs(types.at(i), walk) {
            Ok(()) => {}
            Err(stop) => return Err(stop),
        }
    }
    Ok(())
}

/// The names of these sites are new in the table, to which they are added.
fn sites_differ(sites: &Items<Site>, names: &mut Keys, walk: &mut Walk) -> Result<(), Stop>
    ensures walks { Walks (each_by_earlier (site_is_new names.old) sites.now) walk.old result
        walk.new }
    ensures names { OnOk result (SameKeys names.new (names.old ++ map site_key sites.now)) }
{
    for i in 0..sites.len() {
        let key = key_of(sites.at(i).name);
        match walk.enter_new(Kind::Site, Field::Name, names, key) {
            Ok(()) => {}
            Err(stop) => return Err(stop),
        }
    }
    Ok(())
}

/// The same of a tile's sites, and the tile's own name fits.
fn tile_differs(tile: &Tile, fits: bool, site_names: &mut Keys, walk: &mut Walk) -> Result<(), Stop>
    ensures walks { Walks ((begun "Tile" ∷ asked "Tile" "name" fits ∷ [])
        ++ each_by_earlier (site_is_new site_names.old) tile.now.sites) walk.old result walk.new }
    ensures names { OnOk result (SameKeys site_names.new
        (site_names.old ++ map site_key tile.now.sites)) }
{
    match walk.enter(Kind::Tile, Field::Name, fits) {
        Ok(()) => sites_differ(&tile.sites, site_names, walk),
        Err(stop) => Err(stop),
    }
}

/// The names of tiles differ, and those of sites over all tiles. The tiles' names are left in the
/// table.
fn tiles_differ(tiles: &Items<Tile>, names: &mut Keys, walk: &mut Walk) -> Result<(), Stop>
    requires { names.old ≡ [] }
    ensures walks { Walks (each_by_earlier tile_names tiles.now) walk.old result walk.new }
    ensures names { OnOk result (names.new ≡ map tile_key tiles.now) }
{
    let mut site_names = Keys::new(walk.alloc());
    for i in 0..tiles.len() {
        let tile = tiles.at(i);
        let Ok(new) = names.add(key_of(tile.name)) else {
            return Err(Stop::Memory);
        };
        match tile_differs(tile, new, &mut site_names, walk) {
            Ok(()) => {}
            Err(stop) => return Err(stop),
        }
    }
    Ok(())
}

/// The names differ of site types, tiles, sites and cells, of the BELs and pins of a site type, of
/// the pins of a BEL and of the wires of a tile type. The names of site types and tiles are left in
/// their tables, each at its thing's place.
pub fn names_differ(
    rec: &DeviceRec,
    bels: &Keys,
    site_types: &mut Keys,
    tiles: &mut Keys,
    walk: &mut Walk,
) -> Result<(), Stop>
    requires bels { EachKnown KnowsBels bels.now rec.now.site_type_list }
    requires site_types { site_types.old ≡ [] }
    requires tiles { tiles.old ≡ [] }
    ensures walks { Walks (all_names_differ rec.now) walk.old result walk.new }
    ensures site_types { OnOk result (site_types.new ≡ map site_type_key rec.now.site_type_list) }
    ensures tiles { OnOk result (tiles.new ≡ map tile_key rec.now.tile_list) }
{
    match site_types_differ(&rec.site_type_list, bels, site_types, walk) {
        Ok(()) => {}
        Err(stop) => return Err(stop),
    }
    match tile_types_differ(&rec.tile_type_list, walk) {
        Ok(()) => {}
        Err(stop) => return Err(stop),
    }
    match tiles_differ(&rec.tile_list, tiles, walk) {
        Ok(()) => {}
        Err(stop) => return Err(stop),
    }
    names_differ_in(&rec.cell_bel_map, Kind::CellBelMapping, Field::Cell, walk)
}
