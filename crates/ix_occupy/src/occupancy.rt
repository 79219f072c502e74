//! The occupancy of the nodes of a graph.

ghost use Rattle.std.specs.Prelude.{◌≡◌, ℕ, ◌+◌, ◌-◌, ◌^◌, ◌<◌, ◌≤◌, ◌↔◌, length, vec_len, ◌++◌};
ghost use Rattle.std.specs.Prelude.{◌∷◌, [], IsTrue, IfOk, IfSome, IsNone};
ghost use Rattle.std.specs.Vec.{vec_capacity};
ghost use Rattle.ix_occupy.specs.Steps.{most_hist};
ghost use Rattle.ix_occupy.specs.Loads.{holder_count, hist_at, shared_count, others_at, Recounts};
ghost use Rattle.ix_occupy.specs.Loads.{EndsRound, IsFirstShared};

use crate::loads::{NodeLoad, end_at, least_shared};
use ix_num::{Memory, NodeId};
use std::alloc::Global;
use std::marker::Model;

/// How many nets hold each node, and at how many ends of rounds it was shared.
///
/// Contracts see the list of the nodes' loads: a load is these two numbers. All nodes given to the
/// calls are below the number of nodes that `new` was given. After `new` nothing takes memory. It
/// takes 12 bytes a node.
#[derive(Drop)]
pub struct Occupancy {
    loads: Vec<NodeLoad>,
    // The nodes that were ever claimed, in the order of their first claims. There is room for all
    // nodes.
    touched: Vec<NodeId>,
    // How many nodes are shared.
    shared: u32,
}

impl Model for Occupancy {
    ghost use Rattle.std.specs.Prelude.{List, map};
    ghost use Rattle.std.specs.Vec.{vec_capacity};
    ghost use Rattle.ix_occupy.specs.Loads.{Load};
    ghost use Rattle.ix_occupy.specs.Kept.{load_of, IsKept};

    ghost Value = { List Load };

    ghost view = { λ o. map load_of o.loads.items };

    ghost invariant = { λ o. IsKept o.loads.items o.touched.items
        (vec_capacity o.touched) o.shared };
}

impl Occupancy {
    /// So many nodes, none of them held. `Memory` is the only error.
    pub fn new(alloc: Global, nodes: u32) -> Result<Occupancy, Memory>
        ensures nodes { IfOk result (λ occupancy. length occupancy ≡ nodes) }
        ensures unheld { IfOk result (λ occupancy. (node : ℕ) → holder_count occupancy node ≡ 0) }
        ensures unshared { IfOk result (λ occupancy. (node : ℕ) → hist_at occupancy node ≡ 0) }
    {
        let mut loads = Vec::new(alloc);
        loads.resize(nodes as usize, NodeLoad::BLANK)?;
        let touched = Vec::with_capacity(alloc, nodes as usize)?;
        Ok(Occupancy {
            loads,
            touched,
            shared: 0,
        })
    }

    /// One more net holds the node. Constant time.
    pub fn claim(&mut self, node: NodeId)
        requires inside { node < length self.old }
        requires room { holder_count self.old node < 2 ^ 32 - 1 }
        ensures { Recounts self.old self.new node (holder_count self.old node + 1) }
    {
        let place = node.get() as usize;
        let load = self.loads[place];
        self.loads[place] = NodeLoad {
            holders: load.holders + 1,
            touched: true,
            ..load
        };
        self.shared += u32::from(load.holders == 1);
        if !load.touched {
            put_node(&mut self.touched, node);
        }
    }

    /// One net fewer holds the node. Constant time.
    pub fn release(&mut self, node: NodeId)
        requires inside { node < length self.old }
        requires held { 0 < holder_count self.old node }
        ensures { Recounts self.old self.new node (holder_count self.old node - 1) }
    {
        let place = node.get() as usize;
        let load = self.loads[place];
        self.loads[place] = NodeLoad {
            holders: load.holders - 1,
            ..load
        };
        self.shared -= u32::from(load.holders == 2);
    }

    /// The end of a round: it counts, up to 65,535, for each node with two holders or more. It
    /// looks only at nodes that were ever claimed.
    pub fn end_round(&mut self)
        ensures { EndsRound self.old self.new }
    {
        end_at(&mut self.loads, &self.touched);
    }

    /// How many nets but this one hold the node; `mine` says whether this one does. Constant time.
    pub fn others(&self, node: NodeId, mine: bool) -> u32
        requires inside { node < length self.now }
        requires held { IsTrue mine → 0 < holder_count self.now node }
        ensures { result ≡ others_at self.now node mine }
    {
        let holders = self.loads[node.get() as usize].holders;
        if mine { holders - 1 } else { holders }
    }

    /// At how many ends of rounds the node was shared, 65,535 where there were more. Constant time.
    pub fn hist(&self, node: NodeId) -> u32
        requires { node < length self.now }
        ensures value { result ≡ hist_at self.now node }
        ensures capped { result ≤ most_hist }
    {
        u32::from(self.loads[node.get() as usize].hist)
    }

    /// How many nodes have two holders or more. Constant time.
    pub fn shared_count(&self) -> u32
        ensures count { result ≡ shared_count self.now }
        ensures none { (result ≡ 0) ↔ ((node : ℕ) → holder_count self.now node < 2) }
    {
        self.shared
    }

    /// The least node with two holders or more. It looks only at nodes that were ever claimed.
    pub fn first_shared(&self) -> Option<NodeId>
        ensures least { IfSome result (λ node. IsFirstShared self.now node) }
        ensures none { IsNone result ↔ (shared_count self.now ≡ 0) }
    {
        if self.shared == 0 {
            return None;
        }
        least_shared(&self.loads, &self.touched)
    }
}

// Puts a node at the end of a list that has room for it.
fn put_node(nodes: &mut Vec<NodeId>, node: NodeId)
    requires { vec_len nodes.old < vec_capacity nodes.old }
    ensures items { nodes.new.items ≡ nodes.old.items ++ node ∷ [] }
    ensures room { vec_capacity nodes.old ≤ vec_capacity nodes.new }
{
    match nodes.push(node) {
        Ok(()) => {}
        Err(_) => unreachable!(),
    }
}
