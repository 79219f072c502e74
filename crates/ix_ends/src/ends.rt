//! The ends of all segments of a netlist.

ghost use Rattle.std.specs.Prelude.{◌≡◌, ◌<◌, length, slice_get, Some, None, IfOk, IfSome};
ghost use Rattle.std.specs.Prelude.{◌≤◌, if◌then◌else◌, nat_lt, slice_range};
ghost use Rattle.ix_num.specs.declared.resource.Res.TheVariants.{Wire};
ghost use Rattle.ix_graph.specs.Graph.{graph_of};
ghost use Rattle.ix_legal.specs.Legal.{IsSmall};
ghost use Rattle.ix_ends.specs.declared.ends.EndsFault.TheVariants.{Memory as NoMemory};
ghost use Rattle.ix_ends.specs.Ends.{AreEnds, IsRefused, number_of};

use crate::numbers::Numbers;
use crate::pair::Pair;
use crate::pairs::Pairs;
use ix_device::Device;
use ix_graph::NodeGraph;
use ix_num::{Memory, NodeId, SiteId, SiteWireId};
use ix_rec::Phys;
use std::alloc::{AllocError, AllocFailed, Global};
use std::marker::Model;

/// Why there are no ends of a netlist.
#[derive(Drop)]
pub enum EndsFault {
    /// A net, and a segment of it that has no ends: the first such in the walk.
    NoEnds(u32, u32),
    /// Want of memory.
    Memory,
}

impl From<Memory> for EndsFault {
    ghost from_gives = { λ _ result. result ≡ NoMemory };

    fn from(_memory: Memory) -> EndsFault {
        EndsFault::Memory
    }
}

impl From<AllocError> for EndsFault {
    ghost from_gives = { λ _ result. result ≡ NoMemory };

    fn from(_error: AllocError) -> EndsFault {
        EndsFault::Memory
    }
}

impl<T: Drop> From<AllocFailed<T>> for EndsFault {
    ghost from_gives = { λ _ result. result ≡ NoMemory };

    fn from(_error: AllocFailed<T>) -> EndsFault {
        EndsFault::Memory
    }
}

/// The ends of all segments of a netlist, as numbers: two ends have one number exactly where they
/// are one resource. A node's number is its own; a site's wires get theirs when a segment first has
/// one of them as an end. It takes 8 bytes a net and a site, and 8 to 16 a segment, since the list
/// grows by doubling.
#[derive(Drop)]
pub struct Ends {
    // The pairs of all segments, net after net.
    pairs: Vec<Pair>,
    // Where those of each net begin, and behind them the number of all.
    starts: Vec<usize>,
    nodes: u32,
    // By site the number of its first wire, where its wires have numbers.
    bases: Vec<Option<u32>>,
    count: u32,
}

impl Model for Ends {
    ghost use Rattle.ix_ends.specs.Ends.{EndsSeen};
    ghost use Rattle.ix_ends.specs.Rows.{rows_of, AreLaid};

    ghost Value = { EndsSeen };

    ghost view = { λ e. record {
      rows = rows_of e.starts.items e.pairs.items;
      nodes = e.nodes;
      bases = e.bases.items;
      count = e.count;
    } };

    ghost invariant = { λ e. AreLaid e.starts.items e.pairs.items e.count };
}

// The pairs from one place up to another.
fn between(pairs: &[Pair], start: usize, end: usize) -> &[Pair]
    requires order { start ≤ end }
    requires within { end ≤ length pairs.now }
    ensures { result.now ≡ slice_range pairs.now start end }
{
    &pairs[start..end]
}

impl Ends {
    /// The ends of a netlist's segments; or the first segment that has none. The graph is the
    /// device's. `Memory` comes also where 32 bits don't hold the numbers.
    pub fn new(
        alloc: Global,
        device: &Device,
        graph: &NodeGraph,
        phys: &Phys,
    ) -> Result<Ends, EndsFault>
        requires graph { graph.now ≡ graph_of device.now }
        requires small { IsSmall phys.now }
        ensures ends { IfOk result (AreEnds device.now phys.now) }
        ensures refused { IsRefused device.now phys.now result }
    {
        let mut all = Pairs::new(alloc, device, graph)?;
        let starts = all.add_nets(alloc, device, graph, phys)?;
        let Pairs { pairs, numbers } = all;
        let Numbers { bases, count } = numbers;
        Ok(Ends {
            pairs,
            starts,
            nodes: graph.nodes(),
            bases,
            count,
        })
    }

    /// The ends of a net's segments, in their order: sources, then stubs.
    pub fn row(&self, net: u32) -> &[Pair]
        requires { net < length self.now.rows }
        ensures { slice_get self.now.rows net ≡ Some result.now }
    {
        let start = self.starts[net as usize];
        let end = self.starts[net as usize + 1];
        between(self.pairs.as_slice(), start, end)
    }

    /// A number above those of all resources that have one.
    pub fn count(&self) -> u32
        ensures { result ≡ self.now.count }
    {
        self.count
    }

    /// The node of this number; none exactly where it is that of a site wire.
    pub fn node(&self, number: u32) -> Option<NodeId>
        ensures { result ≡ if nat_lt number self.now.nodes then Some number else None }
    {
        if number < self.nodes {
            Some(NodeId::new(number))
        } else {
            None
        }
    }

    /// The number of a site's wire; none where no segment has a wire of the site as an end.
    pub fn wire(&self, site: SiteId, wire: SiteWireId) -> Option<u32>
        requires site { site < length self.now.bases }
        requires within { IfSome (number_of self.now (Wire site wire)) (λ i. i < self.now.count) }
        ensures { result ≡ number_of self.now (Wire site wire) }
    {
        let base = self.bases[site.get() as usize]?;
        Some(base + wire.get())
    }
}
