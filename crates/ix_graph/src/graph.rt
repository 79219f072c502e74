//! The node graph of a device, and what it tells.

ghost use Rattle.std.specs.Prelude.{◌≡◌, ◌<◌, true, nat_eq, ◌≤◌, ℕ, length, slice_get, Some};
ghost use Rattle.std.specs.Prelude.{IsSome, IfSome, IfOk, option_map, option_and_then};
ghost use Rattle.std.specs.List.{list_any, range_with_len};
ghost use Rattle.ix_graph.specs.Graph.{graph_of, node_at, edge, ends_at, out_of, pip_at};
ghost use Rattle.ix_graph.specs.Graph.{place_of_pip};
ghost use Rattle.ix_graph.specs.Named.{pip_named as pip_named_seen};
ghost use Rattle.ix_graph.specs.Spans.{span};

use crate::constants::constants_of;
use crate::edges::{Edge, edges_of};
use crate::nodes::{Nodes, nodes_of};
use crate::pips::{Pips, pips_of};
use crate::spans::greatest_span;
use ix_device::Device;
use ix_first::number_of;
use ix_num::{Constant, Memory, NameId, NodeId, PipId, TileId};
use ix_rec::Items;
use ix_rows::Rows;
use std::alloc::Global;
use std::marker::Model;

/// The node graph of a device: its tile wires joined into nodes, and its conventional PIPs as edges
/// between them. In contracts it is a `Graph`, of the device from which it was built. No look-up
/// takes memory.
///
/// Nodes are numbered: the entries of the device's list of nodes that have a wire first, then each
/// tile wire that no entry names, by tile and wire. PIPs are numbered by tile and by place in the
/// tile's type, those that need pseudo cells left out; PIP `p` is the directed PIP `2p`, and `2p +
/// 1` backwards where it isn't directional.
///
/// It keeps 8 bytes a directed PIP, 4 a tile wire, and 13 a node, or up to 8 more where the list of
/// first wires has room to spare. What it keeps a tile and a tile type is small beside these, where
/// tiles have more than a few wires and tile types more than a few tiles.
#[derive(Drop)]
pub struct NodeGraph {
    // The node of each wire of each tile, by tile and place in the tile's type.
    wires: Items<Items<NodeId>>,
    // The first wire of each node.
    firsts: Items<(TileId, u32)>,
    pips: Pips,
    // The edges out of each node.
    rows: Rows<Edge>,
    // The constant of each node.
    constants: Items<Option<Constant>>,
    span_max: u32,
}

impl Model for NodeGraph {
    ghost use Rattle.ix_graph.specs.Graph.{Graph};
    ghost use Rattle.ix_graph.specs.Pips.{ways_from};
    ghost use Rattle.ix_graph.specs.IsGraph.{IsGraph};

    ghost Value = { Graph };

    ghost view = { λ g. record {
      wires = g.wires;
      firsts = g.firsts;
      pips = ways_from g.pips.types 0 0 g.pips.kinds;
      constants = g.constants;
      span_max = g.span_max;
    } };

    ghost invariant = { λ g. IsGraph g.wires g.firsts g.pips g.rows g.constants };
}

impl NodeGraph {
    /// The graph of a device.
    ///
    /// # Errors
    ///
    /// `Memory`.
    pub fn build(alloc: Global, device: &Device) -> Result<NodeGraph, Memory>
        ensures graph { IfOk result (λ graph. graph ≡ graph_of device.now) }
        ensures bounds { IfOk result (λ graph. (n : ℕ) → n < length graph.firsts
            → span device.now n ≤ graph.span_max) }
        ensures reached { IfOk result (λ graph. 0 < length graph.firsts
            → list_any (λ n. nat_eq (span device.now n) graph.span_max)
            (range_with_len 0 (length graph.firsts)) ≡ true) }
    {
        let Nodes { wires, firsts } = nodes_of(alloc, device)?;
        let count = firsts.len();
        // Nodes have numbers of 32 bits.
        number_of(count)?;
        let pips = pips_of(alloc, device.rec())?;
        let rows = edges_of(alloc, &pips, &wires, count)?;
        let constants = constants_of(alloc, device, &wires, count)?;
        let span_max = greatest_span(alloc, device.rec(), &wires, count)?;
        Ok(NodeGraph {
            wires,
            firsts,
            pips,
            rows,
            constants,
            span_max,
        })
    }

    /// How many nodes there are. Their numbers are those below it.
    pub fn nodes(&self) -> u32
        ensures { result ≡ length self.now.firsts }
    {
        self.firsts.len() as u32
    }

    /// The node of a wire of a tile. The wire is a place in the list of wires of the tile's type.
    pub fn node_of(&self, tile: TileId, wire: u32) -> NodeId
        requires { IsSome (node_at self.now.wires tile wire) }
        ensures node { node_at self.now.wires tile wire ≡ Some result }
        ensures inside { result < length self.now.firsts }
    {
        *self.wires.at(tile.get() as usize).at(wire as usize)
    }

    /// The first wire of a node: its tile, and its place in the list of wires of the tile's type.
    pub fn first_wire(&self, node: NodeId) -> (TileId, u32)
        requires { node < length self.now.firsts }
        ensures { slice_get self.now.firsts node ≡ Some result }
    {
        *self.firsts.at(node.get() as usize)
    }

    /// How many directed PIPs go out of a node.
    pub fn degree(&self, node: NodeId) -> u32
        requires { node < length self.now.firsts }
        ensures { result ≡ length (out_of self.now node) }
    {
        self.rows.len(node.get() as usize) as u32
    }

    /// A directed PIP out of a node, and the node to which it goes. They are in the order of their
    /// numbers, from 0.
    pub fn out_edge(&self, node: NodeId, i: u32) -> (PipId, NodeId)
        requires node { node < length self.now.firsts }
        requires within { i < length (out_of self.now node) }
        ensures edge { option_and_then (edge self.now.wires) (slice_get (out_of self.now node) i)
            ≡ Some result }
        ensures pip { pip_at self.now result.0 ≡ slice_get (out_of self.now node) i }
        ensures inside { result.1 < length self.now.firsts }
    {
        let edge = self.rows.at(node.get() as usize, i as usize);
        (edge.pip, edge.node)
    }

    /// The node from which a directed PIP goes, and the one to which it goes. The number is one
    /// that the graph gives: PIP `p` has `2p`, and `2p + 1` only where it isn't directional.
    pub fn pip_ends(&self, pip: PipId) -> (NodeId, NodeId)
        requires { IsSome (pip_at self.now pip) }
        ensures ends { option_and_then (ends_at self.now.wires) (pip_at self.now pip)
            ≡ Some result }
        ensures from_inside { result.0 < length self.now.firsts }
        ensures to_inside { result.1 < length self.now.firsts }
    {
        let (tile, pip, forward) = self.pips.locate(pip);
        let node0 = self.node_of(tile, pip.wire0);
        let node1 = self.node_of(tile, pip.wire1);
        if forward {
            (node0, node1)
        } else {
            (node1, node0)
        }
    }

    /// The place of a directed PIP: its tile, the PIP's place in the list of the tile's type, and
    /// whether it goes forward, from the PIP's first wire to its second. The number is one that the
    /// graph gives.
    pub fn pip_place(&self, pip: PipId) -> (TileId, u32, bool)
        requires { IsSome (pip_at self.now pip) }
        ensures { option_map place_of_pip (pip_at self.now pip) ≡ Some result }
    {
        let (tile, pip, forward) = self.pips.locate(pip);
        (tile, pip.place, forward)
    }

    /// The first directed PIP of a tile that joins the wires of these names and goes forward, or
    /// backwards; none exactly where there is none. Both names are the PIP's own, `wire0` first,
    /// also where it goes backwards. The device is the one from which the graph was built.
    pub fn pip_named(
        &self,
        device: &Device,
        tile: TileId,
        wire0: NameId,
        wire1: NameId,
        forward: bool,
    ) -> Option<PipId>
        requires graph { self.now ≡ graph_of device.now }
        requires tile { tile < length device.now.tile_list }
        ensures pip { result ≡ option_map (λ e.
            e.number) (pip_named_seen device.now tile wire0 wire1 forward) }
        ensures at { IfSome result (λ pip. pip_at self.now pip
            ≡ pip_named_seen device.now tile wire0 wire1 forward) }
        ensures there { IfSome result (λ pip. IsSome (pip_at self.now pip)) }
    {
        let wire0 = device.wire_in_tile(tile, wire0)?;
        let wire1 = device.wire_in_tile(tile, wire1)?;
        self.pips.between(tile, wire0, wire1, forward)
    }

    /// The constant that a node carries; none where it carries none or both.
    pub fn constant_of(&self, node: NodeId) -> Option<Constant>
        requires { node < length self.now.firsts }
        ensures { slice_get self.now.constants node ≡ Some result }
    {
        *self.constants.at(node.get() as usize)
    }

    /// The greatest span of a node: half the perimeter of the box of its tiles (the greatest row
    /// less the least, plus the greatest column less the least).
    pub fn span_max(&self) -> u32
        ensures { result ≡ self.now.span_max }
    {
        self.span_max
    }
}
