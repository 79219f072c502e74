//! The constants of nets and nodes.

ghost use Rattle.std.specs.Prelude.{◌≡◌, ◌↔◌, length, Some, IsTrue};
ghost use Rattle.ix_legal.specs.Holders.{constant_of_net as constant_of_net_seen};
ghost use Rattle.ix_net_trees.specs.Constants.{IsNodeOf, IsOfConstant};

use ix_ends::Ends;
use ix_graph::NodeGraph;
use ix_num::Constant;
use ix_rec::NetType;

/// The constant of a net; none of a signal net.
pub(crate) fn constant_of_net(ty: NetType) -> Option<Constant>
    ensures { result ≡ constant_of_net_seen ty }
{
    match ty {
        NetType::Signal => None,
        NetType::Gnd => Some(Constant::Gnd),
        NetType::Vcc => Some(Constant::Vcc),
    }
}

/// Whether a resource is a node of this constant.
pub(crate) fn is_node_of(graph: &NodeGraph, ends: &Ends, number: u32, constant: Constant) -> bool
    requires { ends.now.nodes ≡ length graph.now.firsts }
    ensures { IsTrue result ↔ IsNodeOf graph.now ends.now number constant }
{
    match ends.node(number) {
        Some(node) => is_constant(graph.constant_of(node), constant),
        None => false,
    }
}

/// Whether a resource is a node of the constant of a net of this type.
pub(crate) fn is_of_constant(graph: &NodeGraph, ends: &Ends, number: u32, ty: NetType) -> bool
    requires { ends.now.nodes ≡ length graph.now.firsts }
    ensures { IsTrue result ↔ IsOfConstant graph.now ends.now number (constant_of_net_seen ty) }
{
    match constant_of_net(ty) {
        Some(constant) => is_node_of(graph, ends, number, constant),
        None => false,
    }
}

/// Whether a constant that may be there is this one.
pub(crate) fn is_constant(constant: Option<Constant>, wanted: Constant) -> bool
    ensures { IsTrue result ↔ (constant ≡ Some wanted) }
{
    match constant {
        Some(constant) => constant == wanted,
        None => false,
    }
}
