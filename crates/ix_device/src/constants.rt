//! Which constants a device has.

ghost use Rattle.std.specs.Prelude.{◌≡◌, ℕ, Some, false, map, slice_get, unwrap_or, IfOk};
ghost use Rattle.std.specs.List.{list_any};
ghost use Rattle.ix_keys.specs.Keys.{key, name_key};
ghost use Rattle.ix_first.specs.First.{value_at};
ghost use Rattle.ix_rec.specs.declared.device.TileType.{TileType as TypeSeen};
ghost use Rattle.ix_device.specs.Lookups.{wire_of_type, tile_named};
ghost use Rattle.ix_device.specs.Sources.{is_constant, lists_here, lists_constant, is_source};
ghost use Rattle.ix_device.specs.Sources.{has_constant};

use crate::tile_wires::tile_wire;
use ix_first::FirstByKey;
use ix_keys::Key;
use ix_num::{Constant, Memory, TileId};
use ix_rec::{
    ConstantPreference, DeviceRec, Items, NodeConstantSource, Tile, TileType, WireConstantSources,
};
use std::alloc::Global;

fn is_constant(c: Constant, preference: ConstantPreference) -> bool
    ensures { result ≡ is_constant c preference }
{
    match (c, preference) {
        (Constant::Gnd, ConstantPreference::Gnd) => true,
        (Constant::Vcc, ConstantPreference::Vcc) => true,
        _ => false,
    }
}

// Whether an entry of a tile type lists a wire with this constant.
fn lists_here(sources: &WireConstantSources, c: Constant) -> bool
    ensures { result ≡ lists_here c sources.now }
{
    is_constant(c, sources.constant) && sources.wires.len() > 0
}

// Whether a tile type lists a wire with this constant.
fn lists_constant(ty: &TileType, c: Constant) -> bool
    ensures { result ≡ lists_constant c ty.now }
{
    for i in 0..ty.constants.len() {
        if lists_here(ty.constants.at(i), c) {
            return true;
        }
    }
    false
}

// Of each tile type, whether it lists a wire with this constant.
fn types_that_list(
    alloc: Global,
    types: &Items<TileType>,
    c: Constant,
) -> Result<Items<bool>, Memory>
    ensures { IfOk result (λ lists. lists ≡ map (lists_constant c) types.now) }
{
    let mut lists = Items::with_capacity(alloc, types.len())?;
    for i in 0..types.len() {
        let list = lists_constant(types.at(i), c);
        lists.push(list)?;
    }
    Ok(lists)
}

// Whether a tile is of a type of which this list tells that it lists a constant.
fn is_of_listed(tile: &Tile, lists: &Items<bool>) -> bool
    ensures { result ≡ unwrap_or (slice_get lists.now tile.now.ty) false }
{
    match lists.as_slice().get(tile.ty as usize) {
        Some(list) => *list,
        None => false,
    }
}

// Whether a tile lists this constant.
fn a_tile_lists(tiles: &Items<Tile>, lists: &Items<bool>) -> bool
    ensures { result ≡ list_any (λ t. unwrap_or (slice_get lists.now t.ty) false) tiles.now }
{
    for i in 0..tiles.len() {
        if is_of_listed(tiles.at(i), lists) {
            return true;
        }
    }
    false
}

// Whether a node source is a tile wire with this constant.
fn is_source(
    rec: &DeviceRec,
    tiles: &FirstByKey<TileId>,
    wires: &FirstByKey<u32>,
    c: Constant,
    source: &NodeConstantSource,
) -> bool
    requires tiles { (name : ℕ) → value_at tiles.now (name_key name) ≡ tile_named rec.now name }
    requires wires { (k : ℕ) (ty : TypeSeen) → slice_get rec.now.tile_type_list k ≡ Some ty
        → (name : ℕ) → value_at wires.now (key k 0 name) ≡ wire_of_type name ty }
    ensures { result ≡ is_source rec.now c source.now }
{
    if !is_constant(c, source.constant) {
        return false;
    }
    tile_wire(rec, tiles, wires, source.tile, source.wire).is_some()
}

// Whether one of the node sources is a tile wire with this constant.
fn a_source_stands(
    rec: &DeviceRec,
    tiles: &FirstByKey<TileId>,
    wires: &FirstByKey<u32>,
    c: Constant,
    sources: &Items<NodeConstantSource>,
) -> bool
    requires tiles { (name : ℕ) → value_at tiles.now (name_key name) ≡ tile_named rec.now name }
    requires wires { (k : ℕ) (ty : TypeSeen) → slice_get rec.now.tile_type_list k ≡ Some ty
        → (name : ℕ) → value_at wires.now (key k 0 name) ≡ wire_of_type name ty }
    ensures { result ≡ list_any (is_source rec.now c) sources.now }
{
    for i in 0..sources.len() {
        if is_source(rec, tiles, wires, c, sources.at(i)) {
            return true;
        }
    }
    false
}

/// Whether one of the device's tile wires carries this constant.
pub(crate) fn has_constant(
    alloc: Global,
    rec: &DeviceRec,
    tiles: &FirstByKey<TileId>,
    wires: &FirstByKey<u32>,
    c: Constant,
) -> Result<bool, Memory>
    requires tiles { (name : ℕ) → value_at tiles.now (name_key name) ≡ tile_named rec.now name }
    requires wires { (k : ℕ) (ty : TypeSeen) → slice_get rec.now.tile_type_list k ≡ Some ty
        → (name : ℕ) → value_at wires.now (key k 0 name) ≡ wire_of_type name ty }
    ensures { IfOk result (λ yes. yes ≡ has_constant rec.now c) }
{
    let lists = types_that_list(alloc, &rec.tile_type_list, c)?;
    if a_tile_lists(&rec.tile_list, &lists) {
        return Ok(true);
    }
    match &rec.constants {
        Some(constants) => Ok(a_source_stands(rec, tiles, wires, c, &constants.node_sources)),
        None => Ok(false),
    }
}
