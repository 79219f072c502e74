//! The wires of tile types, by name.

ghost use Rattle.std.specs.Prelude.{◌≡◌, ◌&&◌, ℕ, Some, nat_eq, option_and_then, position};
ghost use Rattle.std.specs.Prelude.{slice_get, IfOk, OnOk};
ghost use Rattle.ix_keys.specs.declared.key.Key.{Key as KeySeen};
ghost use Rattle.ix_keys.specs.Keys.{key, name_key};
ghost use Rattle.ix_first.specs.First.{value_at, or_found};
ghost use Rattle.ix_rec.specs.declared.device.TileType.{TileType as TypeSeen};
ghost use Rattle.ix_device.specs.Lookups.{wire_of_type, wire_of_pin as wire_of_pin_seen};
ghost use Rattle.ix_device.specs.Lookups.{wire_in_tile as wire_in_tile_seen, type_of_tile};
ghost use Rattle.ix_device.specs.Lookups.{tile_named, tile_wire_named};
ghost use Rattle.ix_device.specs.TileWires.{of_type};

use ix_first::{FirstByKey, number_of};
use ix_keys::Key;
use ix_num::{Memory, NameId, SitePinId, TileId};
use ix_rec::{DeviceRec, Items, TileType};
use std::alloc::Global;

// Puts the places of a tile type's wires.
fn put_wires(table: &mut FirstByKey<u32>, owner: u32, wires: &Items<NameId>) -> Result<(), Memory>
    ensures { OnOk result ((q : KeySeen) → value_at table.new q
        ≡ or_found (value_at table.old q) (of_type owner q) (position (nat_eq q.name) wires.now)) }
{
    for i in 0..wires.len() {
        let place = number_of(i)?;
        table.put(Key::new(owner, 0, wires.at(i).get()), place)?;
    }
    Ok(())
}

/// The place of each wire in its tile type, under the tile type's number and the wire's name.
pub(crate) fn tile_wires(alloc: Global, types: &Items<TileType>) -> Result<FirstByKey<u32>, Memory>
    ensures { IfOk result (λ table. (k : ℕ) (ty : TypeSeen) → slice_get types.now k ≡ Some ty
        → (name : ℕ) → value_at table (key k 0 name) ≡ wire_of_type name ty) }
{
    let mut table = FirstByKey::new(alloc);
    for i in 0..types.len() {
        put_wires(&mut table, number_of(i)?, &types.at(i).wires)?;
    }
    Ok(table)
}

/// The place of the wire of this name in the type of a tile.
pub(crate) fn wire_in_tile(
    rec: &DeviceRec,
    wires: &FirstByKey<u32>,
    tile: TileId,
    name: NameId,
) -> Option<u32>
    requires { (k : ℕ) (ty : TypeSeen) → slice_get rec.now.tile_type_list k ≡ Some ty → (name : ℕ)
        → value_at wires.now (key k 0 name) ≡ wire_of_type name ty }
    ensures { result ≡ wire_in_tile_seen rec.now tile name }
{
    let ty = rec.tile_list.as_slice().get(tile.get() as usize)?.ty;
    rec.tile_type_list.as_slice().get(ty as usize)?;
    wires.get(Key::new(ty, 0, name.get()))
}

/// The place, in the type of a tile, of the wire that a pin of the tile's sites at this place of
/// its type is on.
pub(crate) fn wire_of_pin(
    rec: &DeviceRec,
    wires: &FirstByKey<u32>,
    tile: TileId,
    place: u32,
    pin: SitePinId,
) -> Option<u32>
    requires { (k : ℕ) (ty : TypeSeen) → slice_get rec.now.tile_type_list k ≡ Some ty → (name : ℕ)
        → value_at wires.now (key k 0 name) ≡ wire_of_type name ty }
    ensures { result ≡ option_and_then (wire_of_pin_seen place pin) (type_of_tile rec.now tile) }
{
    let number = rec.tile_list.as_slice().get(tile.get() as usize)?.ty;
    let ty = rec.tile_type_list.as_slice().get(number as usize)?;
    let sites = ty.site_types.as_slice().get(place as usize)?;
    let names = sites.primary_pins_to_tile_wires.as_slice();
    let name = *names.get(pin.get() as usize)?;
    wires.get(Key::new(number, 0, name.get()))
}

/// The tile wire of these names: its tile, and its place in the tile's type.
pub(crate) fn tile_wire(
    rec: &DeviceRec,
    tiles: &FirstByKey<TileId>,
    wires: &FirstByKey<u32>,
    tile: NameId,
    wire: NameId,
) -> Option<(TileId, u32)>
    requires tiles { (name : ℕ) → value_at tiles.now (name_key name) ≡ tile_named rec.now name }
    requires wires { (k : ℕ) (ty : TypeSeen) → slice_get rec.now.tile_type_list k ≡ Some ty
        → (name : ℕ) → value_at wires.now (key k 0 name) ≡ wire_of_type name ty }
    ensures { result ≡ tile_wire_named rec.now tile wire }
{
    let tile = tiles.get(Key::of_name(tile.get()))?;
    let place = wire_in_tile(rec, wires, tile, wire)?;
    Some((tile, place))
}
