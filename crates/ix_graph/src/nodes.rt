//! The nodes of a device.

ghost use Rattle.std.specs.Prelude.{◌≡◌, ◌<◌, ◌+◌, ◌++◌, ◌∷◌, ℕ, [], nat_eq, if◌then◌else◌, length};
ghost use Rattle.std.specs.Prelude.{map, take, slice_get, option_map, Some, IfOk, OnOk, IfSome};
ghost use Rattle.std.specs.List.{AllByRecursion, flat_map, position};
ghost use Rattle.ix_first.specs.First.{value_of, or_later};
ghost use Rattle.ix_rec.specs.declared.device.Tile.{Tile as TileSeen};
ghost use Rattle.ix_graph.specs.Nodes.{is_wire, has_wire, entries, entry_wires, node_of, wires_in};
ghost use Rattle.ix_graph.specs.Nodes.{wire_count, nodes, nodes_from, first_wires};
ghost use Rattle.ix_graph.specs.NodeTables.{number_in, HaveNumbers, wires_before, firsts_with};

use ix_device::Device;
use ix_first::{FirstById, number_of};
use ix_num::{Memory, NodeId, TileId};
use ix_rec::{Items, Node};
use std::alloc::Global;

/// The nodes of a device.
#[derive(Drop)]
pub(crate) struct Nodes {
    /// The node of each wire of each tile, by tile and place in the tile's type.
    pub wires: Items<Items<NodeId>>,
    /// The first wire of each node: its tile, and its place in the tile's type.
    pub firsts: Items<(TileId, u32)>,
}

// The number of the next node after so many.
fn next_node(count: usize) -> Result<NodeId, Memory>
    ensures { IfOk result (λ n. n ≡ count) }
{
    Ok(NodeId::new(number_of(count)?))
}

// A table for each tile, of as many numbers as it has wires, without any.
fn empty_tables(alloc: Global, device: &Device) -> Result<Vec<FirstById<NodeId>>, Memory>
    ensures count { IfOk result (λ tables. length tables.items ≡ length device.now.tile_list) }
    ensures empty { IfOk result (λ tables. HaveNumbers device.now tables.items []) }
{
    let rec = device.rec();
    let mut tables = Vec::with_capacity(alloc, rec.tile_list.len())?;
    for i in 0..rec.tile_list.len() {
        let ty = rec.tile_type_list.at(rec.tile_list.at(i).ty as usize);
        tables.push(FirstById::new(alloc, ty.wires.len())?)?;
    }
    Ok(tables)
}

// Puts the number of a node under one of its wires. It is the node's first wire where only the
// nodes before it have theirs.
fn put_wire(
    tables: &mut [FirstById<NodeId>],
    firsts: &mut Items<(TileId, u32)>,
    wire: (TileId, u32),
    node: NodeId,
) -> Result<(), Memory>
    ensures tables { OnOk result ((w : ℕ × ℕ)
        → number_in tables.new w ≡ option_map (λ o. or_later o (is_wire w wire) node)
        (number_in tables.old w)) }
    ensures firsts { OnOk result (firsts.new
        ≡ firsts.old ++ (if nat_eq (length firsts.old) node then wire ∷ [] else [])) }
{
    let tile = wire.0.get() as usize;
    if tile < tables.len() {
        tables[tile].put(wire.1 as usize, node);
    }
    if firsts.len() == node.get() as usize {
        firsts.push(wire)?;
    }
    Ok(())
}

// Puts the number of an entry under each of its wires, and its first wire after those of the nodes
// before it. An entry without a tile wire takes no number.
fn put_entry(
    device: &Device,
    entry: &Node,
    tables: &mut [FirstById<NodeId>],
    firsts: &mut Items<(TileId, u32)>,
) -> Result<(), Memory>
    requires { AllByRecursion (λ w. w < length device.now.wires) entry.now.wires }
    ensures tables { OnOk result ((w : ℕ × ℕ)
        → number_in tables.new w ≡ option_map (λ o.
        or_later o (has_wire w (entry_wires device.now entry.now)) (length firsts.old))
        (number_in tables.old w)) }
    ensures firsts { OnOk result (firsts.new
        ≡ firsts.old ++ take 1 (entry_wires device.now entry.now)) }
{
    let rec = device.rec();
    let node = next_node(firsts.len())?;
    for i in 0..entry.wires.len() {
        let names = rec.wires.at(*entry.wires.at(i) as usize);
        if let Some(wire) = device.tile_wire(names.tile, names.wire) {
            put_wire(tables, firsts, wire, node)?;
        }
    }
    Ok(())
}

// Puts the number of each entry under its wires, and gives their first wires.
fn put_entries(
    alloc: Global,
    device: &Device,
    tables: &mut [FirstById<NodeId>],
) -> Result<Items<(TileId, u32)>, Memory>
    requires { HaveNumbers device.now tables.old [] }
    ensures firsts { IfOk result (λ firsts. firsts ≡ flat_map (take 1) (entries device.now)) }
    ensures tables { OnOk result (HaveNumbers device.now tables.new (entries device.now)) }
{
    let rec = device.rec();
    let mut firsts = Items::new(alloc);
    for i in 0..rec.nodes.len() {
        put_entry(device, rec.nodes.at(i), tables, &mut firsts)?;
    }
    Ok(firsts)
}

// The nodes of the wires of a tile. A wire that no entry names is the first of the next node.
fn nodes_of_tile(
    alloc: Global,
    device: &Device,
    tile: TileId,
    table: &FirstById<NodeId>,
    firsts: &mut Items<(TileId, u32)>,
) -> Result<Items<NodeId>, Memory>
    requires tile { tile < length device.now.tile_list }
    requires table { (t : TileSeen) (wire : ℕ) → slice_get device.now.tile_list tile ≡ Some t
        → wire < wire_count device.now t → value_of table.now wire
        ≡ Some (position (has_wire (tile, wire)) (entries device.now)) }
    requires firsts { firsts.old ≡ firsts_with device.now (wires_before device.now tile) }
    ensures nodes { IfOk result (λ ns. IfSome (slice_get device.now.tile_list tile) (λ t. ns
        ≡ map (node_of device.now) (wires_in tile (wire_count device.now t)))) }
    ensures firsts { OnOk result (firsts.new
        ≡ firsts_with device.now (wires_before device.now (tile + 1))) }
{
    let rec = device.rec();
    let ty = rec
        .tile_type_list
        .at(rec.tile_list.at(tile.get() as usize).ty as usize);
    let mut numbers = Items::with_capacity(alloc, ty.wires.len())?;
    for i in 0..ty.wires.len() {
        if let Some(node) = table.get(i) {
            numbers.push(node)?;
        } else {
            numbers.push(next_node(firsts.len())?)?;
            firsts.push((tile, number_of(i)?))?;
        }
    }
    Ok(numbers)
}

// The nodes of the wires of all tiles. Each table is dropped when its tile is done.
fn nodes_of_tiles(
    alloc: Global,
    device: &Device,
    tables: Vec<FirstById<NodeId>>,
    firsts: &mut Items<(TileId, u32)>,
) -> Result<Items<Items<NodeId>>, Memory>
    requires count { length tables.items ≡ length device.now.tile_list }
    requires tables { HaveNumbers device.now tables.items (entries device.now) }
    requires firsts { firsts.old ≡ flat_map (take 1) (entries device.now) }
    ensures wires { IfOk result (λ wires. wires ≡ nodes_from device.now 0 device.now.tile_list) }
    ensures firsts { OnOk result (firsts.new ≡ first_wires device.now) }
{
    let mut wires = Items::with_capacity(alloc, tables.len())?;
    for (i, table) in tables.into_iter().enumerate() {
        let tile = TileId::new(number_of(i)?);
        wires.push(nodes_of_tile(alloc, device, tile, &table, firsts)?)?;
    }
    Ok(wires)
}

/// The nodes of a device. `Memory` is its only error, and is told too where there are 2^32 nodes or
/// more, of which a valid device has fewer.
pub(crate) fn nodes_of(alloc: Global, device: &Device) -> Result<Nodes, Memory>
    ensures wires { IfOk result (λ n. n.wires ≡ nodes_from device.now 0 device.now.tile_list) }
    ensures firsts { IfOk result (λ n. n.firsts ≡ first_wires device.now) }
    ensures inside { IfOk result (λ n. AllByRecursion (λ ws.
        AllByRecursion (λ m. m < length n.firsts) ws) n.wires) }
    ensures count { IfOk result (λ n. length n.firsts ≡ length (nodes device.now)) }
{
    let mut tables = empty_tables(alloc, device)?;
    let mut firsts = put_entries(alloc, device, &mut tables)?;
    let wires = nodes_of_tiles(alloc, device, tables, &mut firsts)?;
    Ok(Nodes { wires, firsts })
}
