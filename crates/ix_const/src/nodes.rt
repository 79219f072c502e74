//! Nodes of a constant.

ghost use Rattle.std.specs.Prelude.{◌≡◌, ◌<◌, [], ◌∷◌, ◌++◌, length, All, IfOk, OnOk};
ghost use Rattle.std.specs.List.{filter};
ghost use Rattle.ix_const.specs.Constants.{constant_nodes, is_of_constant};

use ix_graph::NodeGraph;
use ix_num::{Constant, Memory, NodeId};
use std::alloc::Global;

// Whether a node is of this constant.
fn is_of_constant(graph: &NodeGraph, node: NodeId, c: Constant) -> bool
    requires { node < length graph.now.firsts }
    ensures { result ≡ is_of_constant c graph.now node }
{
    match (c, graph.constant_of(node)) {
        (Constant::Gnd, Some(Constant::Gnd)) => true,
        (Constant::Vcc, Some(Constant::Vcc)) => true,
        _ => false,
    }
}

// Puts a node at the end where it is of this constant.
fn put_node(
    found: &mut Vec<NodeId>,
    graph: &NodeGraph,
    node: NodeId,
    c: Constant,
) -> Result<(), Memory>
    requires { node < length graph.now.firsts }
    ensures { OnOk result (found.new.items ≡ found.old.items
        ++ filter (is_of_constant c graph.now) (node ∷ [])) }
{
    if is_of_constant(graph, node, c) {
        found.push(node)?;
    }
    Ok(())
}

/// The nodes of a constant, by rising number: those of which a wire is listed with it by its tile's
/// type or named with it by a node source, and none with the other. Time is linear in the nodes.
///
/// # Errors
///
/// `Memory`.
pub fn const_nodes(alloc: Global, graph: &NodeGraph, c: Constant) -> Result<Vec<NodeId>, Memory>
    ensures nodes { IfOk result (λ nodes. nodes.items ≡ constant_nodes c graph.now) }
    ensures inside { IfOk result (λ nodes. All (λ n. n < length graph.now.firsts) nodes.items) }
{
    let mut found = Vec::new(alloc);
    for node in 0..graph.nodes() {
        put_node(&mut found, graph, NodeId::new(node), c)?;
    }
    Ok(found)
}
