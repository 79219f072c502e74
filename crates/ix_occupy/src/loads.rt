//! What is kept of each node, and the two walks over the nodes that were ever claimed.

ghost use Rattle.std.specs.Prelude.{◌≡◌, ℕ, ◌+◌, ◌<◌, ◌≤◌, ◌↔◌, length, IsTrue};
ghost use Rattle.std.specs.List.{All};
ghost use Rattle.ix_occupy.specs.Steps.{times};
ghost use Rattle.ix_occupy.specs.Kept.{at_end, EndsAt, IsLeastShared, IsLesser};

use ix_num::NodeId;

/// What is kept of a node, in 8 bytes.
#[derive(Clone, Copy)]
pub(crate) struct NodeLoad {
    // How many nets hold it.
    pub(crate) holders: u32,
    // At how many ends of rounds it was shared, 65,535 where there were more.
    pub(crate) hist: u16,
    // Whether it was ever claimed.
    pub(crate) touched: bool,
}

impl NodeLoad {
    /// Of a node that was never claimed.
    pub(crate) const BLANK: NodeLoad = NodeLoad {
        holders: 0,
        hist: 0,
        touched: false,
    };

    /// Whether two nets or more hold the node.
    pub(crate) fn is_shared(self) -> bool
        ensures { IsTrue result ↔ (2 ≤ self.holders) }
    {
        self.holders >= 2
    }

    /// What is kept of it after the end of a round.
    pub(crate) fn at_end(self) -> NodeLoad
        ensures { result ≡ at_end self }
    {
        if self.is_shared() {
            NodeLoad {
                hist: self.hist.saturating_add(1),
                ..self
            }
        } else {
            self
        }
    }
}

/// Counts the end of a round at each of these nodes, which differ.
pub(crate) fn end_at(loads: &mut [NodeLoad], nodes: &[NodeId])
    requires inside { All (λ node. node < length loads.old) nodes.now }
    requires once { (node : ℕ) → times node nodes.now ≤ 1 }
    ensures { EndsAt loads.old loads.new nodes.now }
{
    for node in nodes {
        let place = node.get() as usize;
        loads[place] = loads[place].at_end();
    }
}

/// The least of these nodes that is shared.
pub(crate) fn least_shared(loads: &[NodeLoad], nodes: &[NodeId]) -> Option<NodeId>
    requires inside { All (λ node. node < length loads.now) nodes.now }
    ensures { IsLeastShared loads.now nodes.now result }
{
    let mut least = None;
    for node in nodes {
        if loads[node.get() as usize].is_shared() {
            least = Some(lesser(least, *node));
        }
    }
    least
}

// The lesser of a node and the one that was found before, if there was one.
fn lesser(found: Option<NodeId>, node: NodeId) -> NodeId
    ensures { IsLesser found node result }
{
    match found {
        Some(before) if before.get() < node.get() => before,
        _ => node,
    }
}
