//! The edges of a graph: the directed PIPs out of each node.

ghost use Rattle.std.specs.Prelude.{◌≡◌, ◌<◌, ◌≤◌, ◌+◌, ◌*◌, ◌^◌, ◌++◌, ℕ, Some, [], length, map};
ghost use Rattle.std.specs.Prelude.{slice_get, IfOk};
ghost use Rattle.std.specs.List.{filter};
ghost use Rattle.ix_rows.specs.Rows.{row_count, size_of, total_size, filler_rows, room_in, row_in};
ghost use Rattle.ix_graph.specs.Pips.{ways, ways_in, ways_from};
ghost use Rattle.ix_graph.specs.Graph.{goes_from, edge};
ghost use Rattle.ix_graph.specs.Tables.{ArePips};
ghost use Rattle.ix_graph.specs.Nodes.{AreBelow};
ghost use Rattle.ix_graph.specs.Edges.{told, AreWithin, HaveNodes, outs, all_outs, edges_out};
ghost use Rattle.ix_graph.specs.Edges.{AreRows};

use crate::pips::Pips;
use crate::type_pips::TilePip;
use ix_num::{Memory, NodeId, PipId};
use ix_rec::Items;
use ix_rows::{RowFiller, RowSizes, Rows};
use std::alloc::Global;
use std::mem::size_of;

/// A directed PIP, and the node to which it goes.
#[derive(Clone, Copy)]
pub(crate) struct Edge {
    /// The directed PIP.
    pub pip: PipId,
    /// The node.
    pub node: NodeId,
}

// A graph may have 2^29 of them.
const _: () = prove!(size_of::<Edge>() <= 8);

// Counts the ways of a PIP in the rows of the nodes from which they go.
fn count_pip(sizes: &mut RowSizes, pip: TilePip, nodes: &Items<NodeId>)
    requires wire0 { pip.wire0 < length nodes.now }
    requires wire1 { pip.wire1 < length nodes.now }
    requires below { AreBelow (row_count sizes.now) nodes.now }
    requires few { total_size sizes.now + 2 < 2 ^ 32 }
    ensures sizes { (n : ℕ) → size_of sizes.new n ≡ size_of sizes.old n + outs nodes.now n pip }
    ensures total { total_size sizes.new ≤ total_size sizes.old + 2 }
    ensures rows { row_count sizes.new ≡ row_count sizes.old }
{
    sizes.add(nodes.at(pip.wire0 as usize).get() as usize);
    if !pip.directional {
        sizes.add(nodes.at(pip.wire1 as usize).get() as usize);
    }
}

// Counts the ways of a tile's PIPs.
fn count_tile(sizes: &mut RowSizes, pips: &Items<TilePip>, nodes: &Items<NodeId>)
    requires within { AreWithin (length nodes.now) pips.now }
    requires below { AreBelow (row_count sizes.now) nodes.now }
    requires few { total_size sizes.now + 2 * length pips.now < 2 ^ 32 }
    ensures sizes { (n : ℕ) → size_of sizes.new n
        ≡ size_of sizes.old n + all_outs nodes.now n pips.now }
    ensures total { total_size sizes.new ≤ total_size sizes.old + 2 * length pips.now }
    ensures rows { row_count sizes.new ≡ row_count sizes.old }
{
    for i in 0..pips.len() {
        count_pip(sizes, *pips.at(i), nodes);
    }
}

// Counts the ways of all tiles' PIPs.
fn count_tiles(sizes: &mut RowSizes, pips: &Pips, wires: &Items<Items<NodeId>>)
    requires tables { ArePips pips.now }
    requires nodes { HaveNodes wires.now pips.now.types pips.now.kinds (row_count sizes.now) }
    requires none { total_size sizes.now ≡ 0 }
    ensures sizes { (n : ℕ) → size_of sizes.new n
        ≡ size_of sizes.old n + length (filter (goes_from wires.now n)
        (ways_from pips.now.types 0 0 pips.now.kinds)) }
    ensures rows { row_count sizes.new ≡ row_count sizes.old }
{
    for tile in 0..pips.kinds.len() {
        let kind = *pips.kinds.at(tile) as usize;
        count_tile(sizes, pips.types.at(kind), wires.at(tile));
    }
}

// Puts the ways of the PIP of this number into the rows of the nodes from which they go.
fn fill_pip(filler: &mut RowFiller<Edge>, number: u32, pip: TilePip, nodes: &Items<NodeId>)
    requires wire0 { pip.wire0 < length nodes.now }
    requires wire1 { pip.wire1 < length nodes.now }
    requires below { AreBelow (filler_rows filler.now) nodes.now }
    requires few { 2 * number + 1 < 2 ^ 32 }
    requires room { (n : ℕ) → length (row_in filler.now n) + outs nodes.now n pip
        ≤ room_in filler.now n }
    ensures edges { (tile n : ℕ) → map told (row_in filler.new n)
        ≡ map told (row_in filler.old n) ++ edges_out nodes.now n (ways tile number pip) }
    ensures room { (n : ℕ) → room_in filler.new n ≡ room_in filler.old n }
    ensures rows { filler_rows filler.new ≡ filler_rows filler.old }
{
    let node0 = *nodes.at(pip.wire0 as usize);
    let node1 = *nodes.at(pip.wire1 as usize);
    let forward = Edge {
        pip: PipId::new(2 * number),
        node: node1,
    };
    filler.put(node0.get() as usize, forward);
    if !pip.directional {
        let backward = Edge {
            pip: PipId::new(2 * number + 1),
            node: node0,
        };
        filler.put(node1.get() as usize, backward);
    }
}

// Puts the ways of a tile's PIPs, of which the first has this number.
fn fill_tile(filler: &mut RowFiller<Edge>, first: u32, pips: &Items<TilePip>, nodes: &Items<NodeId>)
    requires within { AreWithin (length nodes.now) pips.now }
    requires below { AreBelow (filler_rows filler.now) nodes.now }
    requires few { 2 * (first + length pips.now) < 2 ^ 32 }
    requires room { (n : ℕ) → length (row_in filler.now n) + all_outs nodes.now n pips.now
        ≤ room_in filler.now n }
    ensures edges { (tile n : ℕ) → map told (row_in filler.new n)
        ≡ map told (row_in filler.old n) ++ edges_out nodes.now n (ways_in tile first pips.now) }
    ensures room { (n : ℕ) → room_in filler.new n ≡ room_in filler.old n }
    ensures rows { filler_rows filler.new ≡ filler_rows filler.old }
{
    for i in 0..pips.len() {
        fill_pip(filler, first + i as u32, *pips.at(i), nodes);
    }
}

// Puts the ways of all tiles' PIPs.
fn fill_tiles(filler: &mut RowFiller<Edge>, pips: &Pips, wires: &Items<Items<NodeId>>)
    requires tables { ArePips pips.now }
    requires nodes { HaveNodes wires.now pips.now.types pips.now.kinds (filler_rows filler.now) }
    requires empty { (n : ℕ) → row_in filler.now n ≡ [] }
    requires room { (n : ℕ) → room_in filler.now n
        ≡ length (filter (goes_from wires.now n) (ways_from pips.now.types 0 0 pips.now.kinds)) }
    ensures edges { (n : ℕ) → map told (row_in filler.new n)
        ≡ map (edge wires.now) (filter (goes_from wires.now n)
        (ways_from pips.now.types 0 0 pips.now.kinds)) }
    ensures room { (n : ℕ) → room_in filler.new n ≡ room_in filler.old n }
    ensures rows { filler_rows filler.new ≡ filler_rows filler.old }
{
    for tile in 0..pips.kinds.len() {
        let kind = *pips.kinds.at(tile) as usize;
        let first = *pips.starts.at(tile);
        fill_tile(filler, first, pips.types.at(kind), wires.at(tile));
    }
}

/// The rows of edges of so many nodes. `Memory` is its only error.
pub(crate) fn edges_of(
    alloc: Global,
    pips: &Pips,
    wires: &Items<Items<NodeId>>,
    count: usize,
) -> Result<Rows<Edge>, Memory>
    requires tables { ArePips pips.now }
    requires nodes { HaveNodes wires.now pips.now.types pips.now.kinds count }
    ensures { IfOk result (AreRows wires.now (ways_from pips.now.types 0 0 pips.now.kinds) count) }
{
    let mut sizes = RowSizes::new(alloc, count)?;
    count_tiles(&mut sizes, pips, wires);
    let blank = Edge {
        pip: PipId::new(0),
        node: NodeId::new(0),
    };
    let mut filler = RowFiller::new(alloc, sizes, blank)?;
    fill_tiles(&mut filler, pips, wires);
    Ok(filler.finish())
}
