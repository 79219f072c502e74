//! M7: rows and columns, tile wires and directed PIPs are within their limits.

ghost use Rattle.std.specs.Prelude.{◌≡◌, ◌≤◌, ◌-◌, ◌^◌, [], ◌∷◌, min, nat_le, map, slice_get};
ghost use Rattle.std.specs.Prelude.{unwrap_or, IfOk};
ghost use Rattle.ix_message.specs.Indexes.{begun, asked};
ghost use Rattle.ix_device_rules.specs.Rules.{directed, directed_pips, most_row};
ghost use Rattle.ix_device_rules.specs.Rules.{tiles_are_few as all_tiles_are_few};
ghost use Rattle.ix_device_rules.specs.Sizes.{size_of as type_size, no_size};
ghost use Rattle.ix_device_rules.specs.Walks.{Walks};

use crate::kinds::{Field, Kind};
use crate::size::Size;
use crate::stop::Stop;
use crate::walk::Walk;
use ix_num::Memory;
use ix_rec::{DeviceRec, Items, Pip, PipKind, Tile, TileType};
use std::alloc::Global;

/// The greatest row and column.
const MOST_ROW: u32 = 65535;

/// How many tile wires there may be.
const MOST_TILE_WIRES: u128 = 1 << 28;

/// How many directed PIPs there may be.
const MOST_DIRECTED_PIPS: u128 = 1 << 29;

/// How many directed PIPs the PIP gives.
fn directed_of(pip: &Pip) -> u128
    ensures exact { result ≡ directed pip.now.kind pip.now.directional }
    ensures few { result ≤ 2 }
{
    match pip.kind {
        PipKind::PseudoCells => 0,
        PipKind::Conventional => { if pip.directional { 1 } else { 2 } }
    }
}

/// How many directed PIPs a tile of the type has, or 2^64 - 1 where there are more.
fn pips_of(tile_type: &TileType) -> u64
    ensures { result ≡ min (directed_pips tile_type.now) (2 ^ 64 - 1) }
{
    let mut count: u128 = 0;
    for i in 0..tile_type.pips.len() {
        count += directed_of(tile_type.pips.at(i));
    }
    count.min(u64::MAX as u128) as u64
}

/// How many wires and directed PIPs a tile of the type has.
fn size_of(tile_type: &TileType) -> Size
    ensures { result ≡ type_size tile_type.now }
{
    Size {
        wires: tile_type.wires.len() as u64,
        pips: pips_of(tile_type),
    }
}

/// The same of each tile type.
fn sizes_of(alloc: Global, types: &Items<TileType>) -> Result<Items<Size>, Memory>
    ensures { IfOk result (λ sizes. sizes ≡ map type_size types.now) }
{
    let mut sizes = Items::new(alloc);
    for i in 0..types.len() {
        sizes.push(size_of(types.at(i)))?;
    }
    Ok(sizes)
}

/// The size of a tile of this type.
fn size_at(sizes: &Items<Size>, ty: u32) -> Size
    ensures { result ≡ unwrap_or (slice_get sizes.now ty) no_size }
{
    let place = ty as usize;
    if place < sizes.len() {
        *sizes.at(place)
    } else {
        Size { wires: 0, pips: 0 }
    }
}

/// The tile's place is within its limits, and the counts up to it are.
fn tile_fits(tile: &Tile, counts_fit: bool, walk: &mut Walk) -> Result<(), Stop>
    ensures { Walks (begun "Tile" ∷ asked "Tile" "type" counts_fit
        ∷ asked "Tile" "row" (nat_le tile.now.row most_row)
        ∷ asked "Tile" "col" (nat_le tile.now.col most_row) ∷ []) walk.old result walk.new }
{
    match walk.enter(Kind::Tile, Field::Type, counts_fit) {
        Ok(()) => {}
        Err(stop) => return Err(stop),
    }
    match walk.ask(Kind::Tile, Field::Row, tile.row <= MOST_ROW) {
        Ok(()) => walk.ask(Kind::Tile, Field::Col, tile.col <= MOST_ROW),
        Err(stop) => Err(stop),
    }
}

/// Tiles of types of these sizes are within their limits.
fn tiles_fit(rec: &DeviceRec, sizes: &Items<Size>, walk: &mut Walk) -> Result<(), Stop>
    requires { sizes.now ≡ map type_size rec.now.tile_type_list }
    ensures { Walks (all_tiles_are_few rec.now) walk.old result walk.new }
{
    let mut wires: u128 = 0;
    let mut pips: u128 = 0;
    for i in 0..rec.tile_list.len() {
        let tile = rec.tile_list.at(i);
        let size = size_at(sizes, tile.ty);
        wires += size.wires as u128;
        pips += size.pips as u128;
        let counts_fit = (wires <= MOST_TILE_WIRES) & (pips <= MOST_DIRECTED_PIPS);
        match tile_fits(tile, counts_fit, walk) {
            Ok(()) => {}
            Err(stop) => return Err(stop),
        }
    }
    Ok(())
}

/// Rows and columns, tile wires and directed PIPs are within their limits.
pub fn tiles_are_few(rec: &DeviceRec, walk: &mut Walk) -> Result<(), Stop>
    ensures { Walks (all_tiles_are_few rec.now) walk.old result walk.new }
{
    match sizes_of(walk.alloc(), &rec.tile_type_list) {
        Ok(sizes) => tiles_fit(rec, &sizes, walk),
        Err(_) => Err(Stop::Memory),
    }
}
