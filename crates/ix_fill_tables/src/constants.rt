//! The site wires that the nets of constants hold.

ghost use Rattle.std.specs.Prelude.{◌≡◌, length, List, IfOk, OnOk, Option, Some, None};
ghost use Rattle.ix_num.specs.declared.resource.Res.TheVariants.{Wire};
ghost use Rattle.ix_rec.specs.declared.device.DeviceRec.{DeviceRec};
ghost use Rattle.ix_rec.specs.declared.phys.PhysNet.{PhysNet as NetSeen};
ghost use Rattle.ix_graph.specs.Graph.{graph_of};
ghost use Rattle.ix_graph.specs.Ends.{ends};
ghost use Rattle.ix_legal.specs.Holders.{constant_of_net};
ghost use Rattle.ix_fill_tables.specs.Holdings.{alone as alone_seen, with_constant, held_besides};
ghost use Rattle.ix_fill_tables.specs.Holdings.{Adds, IsOne, IsEither, IsAmong, IsOfNet};
ghost use Rattle.ix_fill_tables.specs.Holdings.{AreHoldings, TellsTie, tie_of as tie_seen};

use crate::pairs::PairMap;
use ix_device::Device;
use ix_graph::NodeGraph;
use ix_lut::Tie;
use ix_num::{Constant, Memory, Res, SiteId, SiteWireId};
use ix_rec::{Forest, NetType, Phys, PhysNet, Segment};
use std::alloc::Global;

/// Which constants hold a wire.
#[derive(Clone, Copy)]
pub(crate) enum Holding {
    /// Logic 0.
    Gnd,
    /// Logic 1.
    Vcc,
    /// Both.
    Both,
}

// The same where a constant holds the wire besides.
fn with(holding: Holding, constant: Constant) -> Holding
    ensures { result ≡ with_constant holding constant }
{
    match (holding, constant) {
        (Holding::Gnd, Constant::Gnd) => Holding::Gnd,
        (Holding::Vcc, Constant::Vcc) => Holding::Vcc,
        _ => Holding::Both,
    }
}

// The constant that holds a wire alone.
fn alone(constant: Constant) -> Holding
    ensures { result ≡ alone_seen constant }
{
    match constant {
        Constant::Gnd => Holding::Gnd,
        Constant::Vcc => Holding::Vcc,
    }
}

// What holds a wire, where a constant does besides.
fn besides(holding: Option<Holding>, constant: Constant) -> Holding
    ensures { result ≡ held_besides holding constant }
{
    match holding {
        None => alone(constant),
        Some(holding) => with(holding, constant),
    }
}

// How a wire is held; none where both constants hold it.
fn tie_of(holding: Option<Holding>) -> Option<Tie>
    ensures { result ≡ tie_seen holding }
{
    match holding {
        None => Some(Tie::Free),
        Some(Holding::Gnd) => Some(Tie::Gnd),
        Some(Holding::Vcc) => Some(Tie::Vcc),
        Some(Holding::Both) => None,
    }
}

/// The site wires that the nets of constants hold.
#[derive(Drop)]
pub(crate) struct ConstantWires {
    // By site and wire.
    pub(crate) holdings: PairMap<Holding>,
}

// The constant of a net; none of a signal net.
fn constant_of(ty: NetType) -> Option<Constant>
    ensures { result ≡ constant_of_net ty }
{
    match ty {
        NetType::Signal => None,
        NetType::Gnd => Some(Constant::Gnd),
        NetType::Vcc => Some(Constant::Vcc),
    }
}

impl ConstantWires {
    /// The wires of a netlist. A segment without ends holds none. `Memory` is the only error.
    pub fn new(
        alloc: Global,
        device: &Device,
        graph: &NodeGraph,
        phys: &Phys,
    ) -> Result<ConstantWires, Memory>
        requires { graph.now ≡ graph_of device.now }
        ensures { IfOk result (λ wires. AreHoldings device.now phys.now.nets wires.holdings) }
    {
        let mut wires = ConstantWires {
            holdings: PairMap::new(alloc),
        };
        for n in 0..phys.nets.len() {
            wires.add_net(device, graph, phys.nets.at(n))?;
        }
        Ok(wires)
    }

    // A constant holds a resource besides, which counts where it is a wire.
    fn add(&mut self, constant: Constant, res: Res) -> Result<(), Memory>
        ensures { OnOk result (Adds (IsOne constant res) self.old.holdings self.new.holdings) }
    {
        match res {
            Res::Node(_) => Ok(()),
            Res::Wire(site, wire) => {
                let before = self.holdings.get(site.get(), wire.get());
                let holding = besides(before, constant);
                self.holdings.insert(site.get(), wire.get(), holding)
            }
        }
    }

    // A constant holds the ends of a segment.
    fn add_segment(
        &mut self,
        device: &Device,
        graph: &NodeGraph,
        constant: Constant,
        segment: &Segment,
    ) -> Result<(), Memory>
        requires { graph.now ≡ graph_of device.now }
        ensures { OnOk result (Adds (IsEither constant (ends device.now segment.now))
            self.old.holdings self.new.holdings) }
    {
        match graph.ends(device, segment) {
            None => Ok(()),
            Some((from, to)) => {
                self.add(constant, from)?;
                self.add(constant, to)
            }
        }
    }

    // A constant holds the ends of the segments of trees.
    fn add_trees(
        &mut self,
        device: &Device,
        graph: &NodeGraph,
        constant: Constant,
        trees: &Forest,
    ) -> Result<(), Memory>
        requires { graph.now ≡ graph_of device.now }
        ensures { OnOk result (Adds (IsAmong device.now trees.now (length trees.now) constant)
            self.old.holdings self.new.holdings) }
    {
        let branches = trees.as_slice();
        for k in 0..branches.len() {
            self.add_segment(device, graph, constant, &branches[k].item)?;
        }
        Ok(())
    }

    // A net holds what it does, which counts where it is a constant's.
    fn add_net(&mut self, device: &Device, graph: &NodeGraph, net: &PhysNet) -> Result<(), Memory>
        requires { graph.now ≡ graph_of device.now }
        ensures { OnOk result (Adds (IsOfNet device.now net.now)
            self.old.holdings self.new.holdings) }
    {
        match constant_of(net.ty) {
            None => Ok(()),
            Some(constant) => {
                self.add_trees(device, graph, constant, &net.sources)?;
                self.add_trees(device, graph, constant, &net.stubs)
            }
        }
    }

    /// What holds a wire; none exactly where both constants do.
    pub fn tie(&self, site: SiteId, wire: SiteWireId) -> Option<Tie>
        ensures { (rec : DeviceRec) (nets : List NetSeen) → AreHoldings rec nets self.now.holdings
            → TellsTie rec nets (Wire site wire) result }
    {
        tie_of(self.holdings.get(site.get(), wire.get()))
    }
}
