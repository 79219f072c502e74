//! The PIPs of a device by number, and by the wires that they join.

ghost use Rattle.std.specs.Prelude.{◌≡◌, ◌<◌, ◌≤◌, ◌+◌, ◌*◌, ◌^◌, ◌&&◌, Some, map, length, take};
ghost use Rattle.std.specs.Prelude.{not, nat_eq, option_map, IfOk, OnOk, IsSome};
ghost use Rattle.std.specs.List.{find, position};
ghost use Rattle.std.specs.List.Sorted.{IsPartitionPoint};
ghost use Rattle.ix_keys.specs.declared.key.Key.{Key as KeySeen};
ghost use Rattle.ix_keys.specs.Keys.{key, key_eq};
ghost use Rattle.ix_first.specs.First.{value_at, or_later, or_found};
ghost use Rattle.ix_graph.specs.Pips.{conventional, pips_of_type, ways_from};
ghost use Rattle.ix_graph.specs.Tables.{joins, joins_back, goes, joins_at, way_number, pip_count};
ghost use Rattle.ix_graph.specs.Tables.{AreStarts, AreForward, AreBackward, ArePips};

use crate::type_pips::{TilePip, pips_of_types};
use ix_first::{FirstByKey, number_of};
use ix_keys::Key;
use ix_num::{Memory, PipId, TileId};
use ix_rec::{DeviceRec, Items, Tile};
use std::alloc::Global;

/// The conventional PIPs of a device's tiles. They are numbered by tile, then by place in the
/// tile's type.
#[derive(Drop)]
pub(crate) struct Pips {
    /// The type of each tile.
    pub kinds: Items<u32>,
    /// The conventional PIPs of each tile type.
    pub types: Items<Items<TilePip>>,
    /// The number of each tile's first PIP.
    pub starts: Items<u32>,
    /// The first PIP of a tile type between two wires, as a place among the type's conventional
    /// PIPs, under the type's number and the wires' places.
    pub forward: FirstByKey<u32>,
    /// The same of those that aren't directional.
    pub backward: FirstByKey<u32>,
}

// A device has at most so many conventional PIPs: twice their count is a number of 32 bits.
const PIPS_MAX: u32 = u32::MAX / 2;

// The type of each of these tiles.
fn kinds_of(alloc: Global, tiles: &Items<Tile>) -> Result<Items<u32>, Memory>
    ensures { IfOk result (λ kinds. kinds ≡ map (λ t. t.ty) tiles.now) }
{
    let mut kinds = Items::with_capacity(alloc, tiles.len())?;
    for i in 0..tiles.len() {
        kinds.push(tiles.at(i).ty)?;
    }
    Ok(kinds)
}

// How many PIPs a tile of this type has.
fn count_of(types: &Items<Items<TilePip>>, ty: u32) -> usize
    ensures { result ≡ length (pips_of_type types.now ty) }
{
    match types.as_slice().get(ty as usize) {
        Some(pips) => pips.len(),
        None => 0,
    }
}

// The number of the next tile's first PIP.
fn next_start(start: u32, count: usize) -> Result<u32, Memory>
    ensures next { IfOk result (λ next. next ≡ start + count) }
    ensures few { IfOk result (λ next. 2 * next < 2 ^ 32) }
{
    let next = start.checked_add(number_of(count)?).ok_or(Memory)?;
    if next > PIPS_MAX {
        return Err(Memory);
    }
    Ok(next)
}

// The number of each tile's first PIP.
fn starts_of(
    alloc: Global,
    types: &Items<Items<TilePip>>,
    kinds: &Items<u32>,
) -> Result<Items<u32>, Memory>
    ensures { IfOk result (AreStarts types.now kinds.now) }
{
    // Tiles have numbers of 32 bits.
    number_of(kinds.len())?;
    let mut starts = Items::with_capacity(alloc, kinds.len())?;
    let mut next = 0;
    for i in 0..kinds.len() {
        starts.push(next)?;
        next = next_start(next, count_of(types, *kinds.at(i)))?;
    }
    Ok(starts)
}

// Puts the place of a PIP that isn't directional.
fn put_backward(
    table: &mut FirstByKey<u32>,
    key: Key,
    place: u32,
    directional: bool,
) -> Result<(), Memory>
    ensures { OnOk result ((q : KeySeen) → value_at table.new q
        ≡ or_later (value_at table.old q) (key_eq key q && not directional) place) }
{
    if !directional {
        table.put(key, place)?;
    }
    Ok(())
}

// Puts the places of a tile type's PIPs under the wires that they join, forward and backward.
fn put_pips(
    forward: &mut FirstByKey<u32>,
    backward: &mut FirstByKey<u32>,
    ty: u32,
    pips: &Items<TilePip>,
) -> Result<(), Memory>
    ensures forward { OnOk result ((q : KeySeen)
        → value_at forward.new q ≡ or_found (value_at forward.old q) (nat_eq ty q.owner)
        (position (joins q.part q.name) pips.now)) }
    ensures backward { OnOk result ((q : KeySeen)
        → value_at backward.new q ≡ or_found (value_at backward.old q) (nat_eq ty q.owner)
        (position (joins_back q.part q.name) pips.now)) }
{
    for i in 0..pips.len() {
        let place = number_of(i)?;
        let pip = pips.at(i);
        let key = Key::new(ty, pip.wire0, pip.wire1);
        forward.put(key, place)?;
        put_backward(backward, key, place, pip.directional)?;
    }
    Ok(())
}

// The places of the first PIPs of tile types between two wires, under the type's number and the
// wires.
#[derive(Drop)]
struct FirstPips {
    // Those that go from the one wire to the other.
    forward: FirstByKey<u32>,
    // Those that also go from the other to the one.
    backward: FirstByKey<u32>,
}

// The first PIPs of these tile types between two wires, in one walk.
fn first_pips(alloc: Global, types: &Items<Items<TilePip>>) -> Result<FirstPips, Memory>
    ensures forward { IfOk result (λ first. AreForward types.now first.forward) }
    ensures backward { IfOk result (λ first. AreBackward types.now first.backward) }
{
    let mut forward = FirstByKey::new(alloc);
    let mut backward = FirstByKey::new(alloc);
    for i in 0..types.len() {
        put_pips(&mut forward, &mut backward, number_of(i)?, types.at(i))?;
    }
    Ok(FirstPips { forward, backward })
}

/// The PIPs of a device. `Memory` is its only error, and is told too where there are 2^31
/// conventional PIPs or 2^32 tiles or more, of which a valid device has fewer.
pub(crate) fn pips_of(alloc: Global, rec: &DeviceRec) -> Result<Pips, Memory>
    ensures kinds { IfOk result (λ p. p.kinds ≡ map (λ t. t.ty) rec.now.tile_list) }
    ensures types { IfOk result (λ p. p.types
        ≡ map (λ ty. conventional ty.pips) rec.now.tile_type_list) }
    ensures tables { IfOk result ArePips }
{
    let kinds = kinds_of(alloc, &rec.tile_list)?;
    let types = pips_of_types(alloc, &rec.tile_type_list)?;
    let starts = starts_of(alloc, &types, &kinds)?;
    let FirstPips { forward, backward } = first_pips(alloc, &types)?;
    Ok(Pips {
        kinds,
        types,
        starts,
        forward,
        backward,
    })
}

// The directed PIP of a PIP, this way.
fn way_of(number: u32, forward: bool) -> PipId
    requires { 2 * number + 1 < 2 ^ 32 }
    ensures { result ≡ way_number number forward }
{
    if forward {
        PipId::new(2 * number)
    } else {
        PipId::new(2 * number + 1)
    }
}

impl Pips {
    // How many tiles begin at the PIP of this number or before it.
    fn begun(&self, number: u32) -> usize
        requires { ArePips self.now }
        ensures most { result ≤ length self.now.kinds }
        ensures point { IsPartitionPoint (λ start. start ≤ number) (λ start.
            number < start) self.now.starts result }
    {
        let starts = self.starts.as_slice();
        starts.partition_point(|start| *start <= number)
    }

    // The tile of the PIP of this number: the last that begins there or before.
    fn tile_of(&self, number: u32) -> usize
        requires tables { ArePips self.now }
        requires there { number < pip_count self.now.types self.now.kinds }
        ensures tile { result < length self.now.kinds }
        ensures begins { pip_count self.now.types (take result self.now.kinds) ≤ number }
        ensures ends { number < pip_count self.now.types (take (result + 1) self.now.kinds) }
    {
        self.begun(number) - 1
    }

    /// The tile of a directed PIP, its PIP among those of the tile's type, and whether it goes
    /// forward.
    pub(crate) fn locate(&self, pip: PipId) -> (TileId, TilePip, bool)
        requires tables { ArePips self.now }
        requires there { IsSome (find (λ e. nat_eq e.number pip)
            (ways_from self.now.types 0 0 self.now.kinds)) }
        ensures { option_map (λ e. (e.tile, e.pip, e.forward))
            (find (λ e. nat_eq e.number pip) (ways_from self.now.types 0 0 self.now.kinds))
            ≡ Some result }
    {
        let number = pip.get() / 2;
        let tile = self.tile_of(number);
        let place = number - *self.starts.at(tile);
        let pips = self.types.at(*self.kinds.at(tile) as usize);
        (
            TileId::new(tile as u32),
            *pips.at(place as usize),
            pip.get() % 2 == 0,
        )
    }

    // The place of the first PIP of a tile type between these wires, this way.
    fn first_number(&self, key: Key, forward: bool) -> Option<u32>
        requires tables { ArePips self.now }
        ensures { result ≡ position (goes key.part key.name forward)
            (pips_of_type self.now.types key.owner) }
    {
        if forward {
            self.forward.get(key)
        } else {
            self.backward.get(key)
        }
    }

    /// The first directed PIP of a tile between these wires of the tile, this way; none exactly
    /// where there is none.
    pub(crate) fn between(
        &self,
        tile: TileId,
        wire0: u32,
        wire1: u32,
        forward: bool,
    ) -> Option<PipId>
        requires tables { ArePips self.now }
        requires tile { tile < length self.now.kinds }
        ensures { result ≡ option_map (λ e. e.number)
            (find (joins_at tile wire0 wire1 forward)
            (ways_from self.now.types 0 0 self.now.kinds)) }
    {
        let at = tile.get() as usize;
        let place = self.first_number(Key::new(*self.kinds.at(at), wire0, wire1), forward)?;
        Some(way_of(*self.starts.at(at) + place, forward))
    }
}
