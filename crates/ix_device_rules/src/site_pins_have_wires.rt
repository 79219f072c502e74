//! M6: each pin of a site has its tile wire.

ghost use Rattle.std.specs.Prelude.{◌≡◌, [], ◌∷◌, ◌++◌, nat_eq, length};
ghost use Rattle.std.specs.List.{flat_map};
ghost use Rattle.ix_message.specs.Indexes.{begun, asked};
ghost use Rattle.ix_device_rules.specs.Rules.{pin_count as count_of_pins, sites_of_tile_type};
ghost use Rattle.ix_device_rules.specs.Rules.{site_pins_have_wires as all_site_pins_have_wires};
ghost use Rattle.ix_device_rules.specs.Tables.{KnowsWires, EachKnown, wire_is_there};
ghost use Rattle.ix_device_rules.specs.Walks.{Walks};

use crate::kinds::{Field, Kind};
use crate::number::number_of;
use crate::stop::Stop;
use crate::walk::Walk;
use ix_keys::{Key, Keys};
use ix_num::{NameId, SiteTypeId};
use ix_rec::{DeviceRec, Items, SiteTypeInTileType, TileType};

/// How many pins the site type has.
#[tactic(auto, using(std::proofs::lemmas::Option::get_or_from_slice_get))]
fn pin_count(rec: &DeviceRec, site_type: SiteTypeId) -> usize
    ensures { result ≡ count_of_pins rec.now site_type }
{
    let place = site_type.get() as usize;
    if place < rec.site_type_list.len() {
        rec.site_type_list.at(place).pins.len()
    } else {
        0
    }
}

/// These are names of wires of the tile type with this number.
fn wires_are_there(
    names: &Items<NameId>,
    number: u32,
    wires: &Keys,
    walk: &mut Walk,
) -> Result<(), Stop>
    ensures { Walks (flat_map (wire_is_there wires.now number) names.now) walk.old result walk.new }
{
    for i in 0..names.len() {
        let there = wires.has(Key::new(number, 0, names.at(i).get()));
        match walk.ask(
            Kind::SiteTypeInTileType,
            Field::PrimaryPinsToTileWires,
            there,
        ) {
            Ok(()) => {}
            Err(stop) => return Err(stop),
        }
    }
    Ok(())
}

/// The pins of a site type have their wires in the tile type with this number.
fn site_fits(
    rec: &DeviceRec,
    site: &SiteTypeInTileType,
    number: u32,
    wires: &Keys,
    walk: &mut Walk,
) -> Result<(), Stop>
    ensures { Walks ((begun "SiteTypeInTileType"
        ∷ asked "SiteTypeInTileType" "primaryPinsToTileWires"
        (nat_eq (length site.now.primary_pins_to_tile_wires)
        (count_of_pins rec.now site.now.primary_type)) ∷ [])
        ++ flat_map (wire_is_there wires.now number) site.now.primary_pins_to_tile_wires) walk.old
        result walk.new }
{
    let names = &site.primary_pins_to_tile_wires;
    let fits = names.len() == pin_count(rec, site.primary_type);
    match walk.enter(
        Kind::SiteTypeInTileType,
        Field::PrimaryPinsToTileWires,
        fits,
    ) {
        Ok(()) => wires_are_there(names, number, wires, walk),
        Err(stop) => Err(stop),
    }
}

/// The same of each site type of a tile type.
fn tile_type_fits(
    rec: &DeviceRec,
    tile_type: &TileType,
    number: u32,
    wires: &Keys,
    walk: &mut Walk,
) -> Result<(), Stop>
    requires { KnowsWires wires.now number tile_type.now }
    ensures { Walks (sites_of_tile_type rec.now tile_type.now) walk.old result walk.new }
{
    for i in 0..tile_type.site_types.len() {
        match site_fits(rec, tile_type.site_types.at(i), number, wires, walk) {
            Ok(()) => {}
            Err(stop) => return Err(stop),
        }
    }
    Ok(())
}

/// Each pin of a site has its tile wire.
pub fn site_pins_have_wires(rec: &DeviceRec, wires: &Keys, walk: &mut Walk) -> Result<(), Stop>
    requires { EachKnown KnowsWires wires.now rec.now.tile_type_list }
    ensures { Walks (all_site_pins_have_wires rec.now) walk.old result walk.new }
{
    let types = &rec.tile_type_list;
    for i in 0..types.len() {
        let Ok(number) = number_of(i) else {
            return Err(Stop::Memory);
        };
        match tile_type_fits(rec, types.at(i), number, wires, walk) {
            Ok(()) => {}
            Err(stop) => return Err(stop),
        }
    }
    Ok(())
}
