//! The node graph of a device, in words: how many nodes there are and their greatest span; each
//! node with its first wire, its constant, how many edges it has and the edges, each as a directed
//! PIP and the node to which it goes; and each tile with the nodes of its wires. Of more than eight
//! edges the first and the last are told.

ghost use Rattle.std.specs.Prelude.{◌≡◌, ◌<◌, length};
ghost use Rattle.ix_graph.specs.Graph.{graph_of, out_of};

use crate::asked::Asked;
use crate::names::{put_name, put_wire_name};
use ix_graph::NodeGraph;
use ix_num::{Constant, NameId, NodeId};
use ix_rec::{Items, Tile};
use std::alloc::AllocError;

/// The most edges of a node that are all told.
const MOST_TOLD: u32 = 8;

/// The word of a constant, or of none.
pub fn constant_word(constant: Option<Constant>) -> &'static str {
    match constant {
        Some(Constant::Gnd) => "gnd",
        Some(Constant::Vcc) => "vcc",
        None => "none",
    }
}

/// Writes an edge of a node. By its number alone it has the same ends.
fn put_edge(text: &mut String, graph: &NodeGraph, node: NodeId, i: u32) -> Result<(), AllocError>
    requires node { node < length graph.now.firsts }
    requires edge { i < length (out_of graph.now node) }
{
    let (pip, to) = graph.out_edge(node, i);
    let (first, last) = graph.pip_ends(pip);
    if first != node || last != to {
        return text.push_str(" a PIP between other nodes");
    }
    let pip = pip.get();
    let to = to.get();
    write!(text, " {pip}>{to}")
}

/// Writes the edges of a node.
fn put_edges(text: &mut String, graph: &NodeGraph, node: NodeId) -> Result<(), AllocError>
    requires { node < length graph.now.firsts }
{
    let degree = graph.degree(node);
    write!(text, " {degree}")?;
    for i in 0..degree {
        if degree <= MOST_TOLD || i == 0 || i == degree - 1 {
            put_edge(text, graph, node, i)?;
        }
    }
    Ok(())
}

fn put_node(
    text: &mut String,
    graph: &NodeGraph,
    asked: &Asked<'_>,
    node: NodeId,
) -> Result<(), AllocError>
    requires { node < length graph.now.firsts }
{
    let number = node.get();
    write!(text, "{number} ")?;
    let (tile, wire) = graph.first_wire(node);
    put_wire_name(text, asked.names, asked.device, tile, wire)?;
    let constant = constant_word(graph.constant_of(node));
    write!(text, " {constant}")?;
    put_edges(text, graph, node)?;
    text.push_str("; ")
}

fn put_nodes(text: &mut String, graph: &NodeGraph, asked: &Asked<'_>) -> Result<(), AllocError> {
    let nodes = graph.nodes();
    let span = graph.span_max();
    write!(text, "{nodes} nodes span {span}; ")?;
    for node in 0..nodes {
        put_node(text, graph, asked, NodeId::new(node))?;
    }
    Ok(())
}

/// Writes the node of the tile wire of these names.
fn put_node_of(
    text: &mut String,
    graph: &NodeGraph,
    asked: &Asked<'_>,
    tile: NameId,
    wire: NameId,
) -> Result<(), AllocError>
    requires { graph.now ≡ graph_of asked.now.device.now }
{
    match asked.device.tile_wire(tile, wire) {
        Some((tile, wire)) => {
            let node = graph.node_of(tile, wire).get();
            write!(text, " {node}")
        }
        None => text.push_str(" ?"),
    }
}

/// Writes the nodes of these wires of a tile.
fn put_wires(
    text: &mut String,
    graph: &NodeGraph,
    asked: &Asked<'_>,
    tile: NameId,
    wires: &Items<NameId>,
) -> Result<(), AllocError>
    requires { graph.now ≡ graph_of asked.now.device.now }
{
    for i in 0..wires.len() {
        put_node_of(text, graph, asked, tile, *wires.at(i))?;
    }
    Ok(())
}

fn put_tile(
    text: &mut String,
    graph: &NodeGraph,
    asked: &Asked<'_>,
    tile: &Tile,
) -> Result<(), AllocError>
    requires { graph.now ≡ graph_of asked.now.device.now }
{
    put_name(text, asked.names, tile.name)?;
    let types = asked.device.rec().tile_type_list.as_slice();
    match types.get(tile.ty as usize) {
        Some(ty) => put_wires(text, graph, asked, tile.name, &ty.wires)?,
        None => text.push_str(" ?")?,
    }
    text.push_str("; ")
}

fn put_tiles(text: &mut String, graph: &NodeGraph, asked: &Asked<'_>) -> Result<(), AllocError>
    requires { graph.now ≡ graph_of asked.now.device.now }
{
    let tiles = &asked.device.rec().tile_list;
    for i in 0..tiles.len() {
        put_tile(text, graph, asked, tiles.at(i))?;
    }
    Ok(())
}

/// Writes the node graph of a device.
pub fn put_graph(text: &mut String, graph: &NodeGraph, asked: &Asked<'_>) -> Result<(), AllocError>
    requires { graph.now ≡ graph_of asked.now.device.now }
{
    put_nodes(text, graph, asked)?;
    put_tiles(text, graph, asked)
}
