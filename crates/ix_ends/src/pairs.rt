//! Pairs of ends, segment by segment.

ghost use Rattle.std.specs.Prelude.{◌≡◌, [], IfOk, IfErr, OnOk};
ghost use Rattle.ix_graph.specs.Graph.{graph_of};
ghost use Rattle.ix_legal.specs.Legal.{IsShort, IsSmall};
ghost use Rattle.ix_legal.specs.Segments.{segments};
ghost use Rattle.ix_ends.specs.Ends.{IsThere, IsRefused};
ghost use Rattle.ix_ends.specs.Numbering.{AreNumbers};
ghost use Rattle.ix_ends.specs.Pairs.{AddsPair, AddsPairs, AreFilled, StopsAt};

use crate::ends::EndsFault;
use crate::numbers::Numbers;
use crate::pair::Pair;
use crate::stop::Stop;
use ix_device::Device;
use ix_graph::NodeGraph;
use ix_num::{Memory, Res};
use ix_rec::{Forest, Phys, PhysNet};
use std::alloc::Global;

/// The pairs of all segments so far, and the numbers of their ends.
#[derive(Drop)]
pub struct Pairs {
    /// The pairs, net after net.
    pub pairs: Vec<Pair>,
    /// The numbers.
    pub numbers: Numbers,
}

impl Pairs {
    /// No pairs yet. `Memory` is the only error.
    pub fn new(alloc: Global, device: &Device, graph: &NodeGraph) -> Result<Pairs, Memory>
        requires { graph.now ≡ graph_of device.now }
        ensures none { IfOk result (λ pairs. pairs.pairs.items ≡ []) }
        ensures numbers { IfOk result (λ pairs. AreNumbers device.now pairs.numbers) }
    {
        let numbers = Numbers::new(alloc, device, graph)?;
        Ok(Pairs {
            pairs: Vec::new(alloc),
            numbers,
        })
    }

    // One pair more. `Memory` is the only error, also where there are no numbers left.
    fn add(&mut self, device: &Device, from: Res, to: Res) -> Result<(), Memory>
        requires from { IsThere device.now from }
        requires to { IsThere device.now to }
        requires numbers { AreNumbers device.now self.old.numbers }
        ensures { OnOk result (AddsPair device.now from to self.old self.new) }
    {
        let from = self.numbers.number(device, from).ok_or(Memory)?;
        let to = self.numbers.number(device, to).ok_or(Memory)?;
        self.pairs.push(Pair { from, to })?;
        Ok(())
    }

    // The pairs of the segments of trees, up to the first that has no ends.
    fn add_trees(&mut self, device: &Device, graph: &NodeGraph, trees: &Forest) -> Result<(), Stop>
        requires graph { graph.now ≡ graph_of device.now }
        requires numbers { AreNumbers device.now self.old.numbers }
        requires short { IsShort trees.now }
        ensures added { OnOk result (AddsPairs device.now trees.now self.old self.new) }
        ensures stopped { IfErr result (StopsAt device.now trees.now) }
    {
        let branches = trees.as_slice();
        for k in 0..branches.len() {
            let Some((from, to)) = graph.ends(device, &branches[k].item) else {
                return Err(Stop::NoEnds(k as u32));
            };
            self.add(device, from, to)?;
        }
        Ok(())
    }

    // The pairs of the segments of a net, up to the first that has no ends.
    fn add_net(&mut self, device: &Device, graph: &NodeGraph, net: &PhysNet) -> Result<(), Stop>
        requires graph { graph.now ≡ graph_of device.now }
        requires numbers { AreNumbers device.now self.old.numbers }
        requires sources { IsShort net.now.sources }
        requires stubs { IsShort net.now.stubs }
        ensures added { OnOk result (AddsPairs device.now (segments net.now) self.old self.new) }
        ensures stopped { IfErr result (StopsAt device.now (segments net.now)) }
    {
        self.add_trees(device, graph, &net.sources)?;
        match self.add_trees(device, graph, &net.stubs) {
            Err(Stop::NoEnds(k)) => Err(Stop::NoEnds(net.sources.len() as u32 + k)),
            other => other,
        }
    }

    /// The pairs of the segments of all nets, and where those of each begin, and behind them the
    /// number of all; or the first segment that has no ends.
    pub fn add_nets(
        &mut self,
        alloc: Global,
        device: &Device,
        graph: &NodeGraph,
        phys: &Phys,
    ) -> Result<Vec<usize>, EndsFault>
        requires graph { graph.now ≡ graph_of device.now }
        requires small { IsSmall phys.now }
        requires numbers { AreNumbers device.now self.old.numbers }
        requires none { self.old.pairs.items ≡ [] }
        ensures filled { IfOk result (λ starts. AreFilled device.now phys.now.nets self.old self.new
            starts.items) }
        ensures refused { IsRefused device.now phys.now result }
    {
        let nets = phys.nets.as_slice();
        let mut starts = Vec::with_capacity(alloc, nets.len() + 1)?;
        starts.push(0)?;
        for n in 0..nets.len() {
            match self.add_net(device, graph, &nets[n]) {
                Ok(()) => {}
                Err(Stop::NoEnds(k)) => return Err(EndsFault::NoEnds(n as u32, k)),
                Err(Stop::Memory) => return Err(EndsFault::Memory),
            }
            starts.push(self.pairs.len())?;
        }
        Ok(starts)
    }
}
