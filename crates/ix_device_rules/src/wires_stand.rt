//! M2: wires are tile wires, each in one node.

ghost use Rattle.std.specs.Prelude.{◌≡◌, [], ◌∷◌, ◌++◌, map, position, OnOk};
ghost use Rattle.std.specs.List.{flat_map};
ghost use Rattle.ix_message.specs.Indexes.{begun};
ghost use Rattle.ix_keys.specs.Keys.{name_key, key_eq, AllDiffer};
ghost use Rattle.ix_device_rules.specs.Named.{tile_key};
ghost use Rattle.ix_device_rules.specs.Rules.{each_by_earlier, node_wires};
ghost use Rattle.ix_device_rules.specs.Rules.{wire_stands as wire_steps, has_tile, has_tile_wire};
ghost use Rattle.ix_device_rules.specs.Rules.{wires_stand as all_wires_stand};
ghost use Rattle.ix_device_rules.specs.Tables.{KnowsWires, EachKnown, SameKeys};
ghost use Rattle.ix_device_rules.specs.TileWires.{wire_key as key_of_wire, wire_keys, node_keys};
ghost use Rattle.ix_device_rules.specs.TileWires.{wire_is_free, is_free_of, has_wire_at};
ghost use Rattle.ix_device_rules.specs.Walks.{Walks};

use crate::kinds::{Field, Kind};
use crate::named::key_of;
use crate::stop::Stop;
use crate::walk::Walk;
use ix_keys::{Key, Keys};
use ix_num::{Memory, NameId};
use ix_rec::{DeviceRec, Items, Node, Wire};

/// Whether the tile at this place has a wire of this name.
#[tactic(auto, using(std::proofs::lemmas::Option::get_or_from_slice_get))]
fn has_wire(rec: &DeviceRec, tile_wires: &Keys, place: Option<u32>, wire: NameId) -> bool
    ensures { result ≡ has_wire_at rec.now tile_wires.now place wire }
{
    let Some(place) = place else {
        return false;
    };
    if place as usize >= rec.tile_list.len() {
        return false;
    }
    let ty = rec.tile_list.at(place as usize).ty;
    if ty as usize >= rec.tile_type_list.len() {
        return false;
    }
    tile_wires.has(Key::new(ty, 0, wire.get()))
}

/// The wire is a tile wire.
fn wire_stands(
    rec: &DeviceRec,
    tiles: &Keys,
    tile_wires: &Keys,
    wire: &Wire,
    walk: &mut Walk,
) -> Result<(), Stop>
    requires tiles { tiles.now ≡ map tile_key rec.now.tile_list }
    requires wires { EachKnown KnowsWires tile_wires.now rec.now.tile_type_list }
    ensures { Walks (wire_steps rec.now wire.now) walk.old result walk.new }
{
    let place = tiles.find(key_of(wire.tile));
    match walk.enter(Kind::Wire, Field::Tile, place.is_some()) {
        Ok(()) => {
            let there = has_wire(rec, tile_wires, place, wire.wire);
            walk.ask(Kind::Wire, Field::Wire, there)
        }
        Err(stop) => Err(stop),
    }
}

/// Each wire is a tile wire.
fn each_wire_stands(
    rec: &DeviceRec,
    tiles: &Keys,
    tile_wires: &Keys,
    walk: &mut Walk,
) -> Result<(), Stop>
    requires tiles { tiles.now ≡ map tile_key rec.now.tile_list }
    requires wires { EachKnown KnowsWires tile_wires.now rec.now.tile_type_list }
    ensures { Walks (flat_map (wire_steps rec.now) rec.now.wires) walk.old result walk.new }
{
    for i in 0..rec.wires.len() {
        match wire_stands(rec, tiles, tile_wires, rec.wires.at(i), walk) {
            Ok(()) => {}
            Err(stop) => return Err(stop),
        }
    }
    Ok(())
}

/// A tile wire, where it is meant.
fn wire_key(wire: &Wire) -> Key
    ensures { result ≡ key_of_wire wire.now }
{
    Key::new(wire.tile.get(), 0, wire.wire.get())
}

/// Whether the wire at this place is none of those taken.
#[tactic(auto, using(std::proofs::lemmas::Option::get_or_from_slice_get))]
fn is_free(wires: &Items<Wire>, taken: &Keys, place: u32) -> bool
    ensures { result ≡ is_free_of wires.now taken.now place }
{
    if place as usize >= wires.len() {
        return true;
    }
    !taken.has(wire_key(wires.at(place as usize)))
}

/// The wires of a node are none of those taken.
fn wires_are_free(
    wires: &Items<Wire>,
    node: &Node,
    taken: &Keys,
    walk: &mut Walk,
) -> Result<(), Stop>
    ensures { Walks (flat_map (wire_is_free wires.now taken.now) node.now.wires) walk.old result
        walk.new }
{
    for i in 0..node.wires.len() {
        let free = is_free(wires, taken, *node.wires.at(i));
        match walk.ask(Kind::Node, Field::Wires, free) {
            Ok(()) => {}
            Err(stop) => return Err(stop),
        }
    }
    Ok(())
}

/// The wire at this place is taken.
#[tactic(auto, using(std::proofs::lemmas::Option::get_or_from_slice_get))]
fn take_wire(wires: &Items<Wire>, place: u32, taken: &mut Keys) -> Result<(), Memory>
    ensures { OnOk result (SameKeys taken.new (taken.old ++ wire_keys wires.now place)) }
{
    if place as usize >= wires.len() {
        return Ok(());
    }
    match taken.add(wire_key(wires.at(place as usize))) {
        Ok(_) => Ok(()),
        Err(memory) => Err(memory),
    }
}

/// The wires of a node are taken.
fn take_wires(wires: &Items<Wire>, node: &Node, taken: &mut Keys) -> Result<(), Memory>
    ensures { OnOk result (SameKeys taken.new (taken.old ++ node_keys wires.now node.now)) }
{
    for i in 0..node.wires.len() {
        match take_wire(wires, *node.wires.at(i), taken) {
            Ok(()) => {}
            Err(memory) => return Err(memory),
        }
    }
    Ok(())
}

/// The wires of a node are none of those taken, and then are.
fn node_stands(
    wires: &Items<Wire>,
    node: &Node,
    taken: &mut Keys,
    walk: &mut Walk,
) -> Result<(), Stop>
    ensures walks { Walks (begun "Node" ∷ flat_map (wire_is_free wires.now taken.old)
        node.now.wires) walk.old result walk.new }
    ensures taken { OnOk result (SameKeys taken.new (taken.old ++ node_keys wires.now node.now)) }
{
    match walk.begin(Kind::Node) {
        Ok(()) => {}
        Err(stop) => return Err(stop),
    }
    match wires_are_free(wires, node, taken, walk) {
        Ok(()) => {}
        Err(stop) => return Err(stop),
    }
    match take_wires(wires, node, taken) {
        Ok(()) => Ok(()),
        Err(_) => Err(Stop::Memory),
    }
}

/// No tile wire is in two nodes.
fn nodes_stand(rec: &DeviceRec, walk: &mut Walk) -> Result<(), Stop>
    ensures { Walks (each_by_earlier (node_wires rec.now) rec.now.nodes) walk.old result walk.new }
{
    let mut taken = Keys::new(walk.alloc());
    for i in 0..rec.nodes.len() {
        match node_stands(&rec.wires, rec.nodes.at(i), &mut taken, walk) {
            Ok(()) => {}
            Err(stop) => return Err(stop),
        }
    }
    Ok(())
}

/// Wires are tile wires, and no tile wire is in two nodes.
pub fn wires_stand(
    rec: &DeviceRec,
    tiles: &Keys,
    tile_wires: &Keys,
    walk: &mut Walk,
) -> Result<(), Stop>
    requires tiles { tiles.now ≡ map tile_key rec.now.tile_list }
    requires wires { EachKnown KnowsWires tile_wires.now rec.now.tile_type_list }
    ensures { Walks (all_wires_stand rec.now) walk.old result walk.new }
{
    match each_wire_stands(rec, tiles, tile_wires, walk) {
        Ok(()) => nodes_stand(rec, walk),
        Err(stop) => Err(stop),
    }
}
