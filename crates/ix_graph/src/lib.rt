//! The node graph of a device: tile wires become nodes, and PIPs edges.
#![tactic(auto)]

mod constants;
mod edges;
mod ends;
mod graph;
mod nodes;
mod pips;
mod spans;
mod type_pips;

pub use graph::NodeGraph;
