//! What holds the resources of a netlist that keeps the rules on names and on sharing.

ghost use Rattle.std.specs.Prelude.{◌≡◌, List, IfOk};
ghost use Rattle.ix_graph.specs.Graph.{graph_of};
ghost use Rattle.ix_legal.specs.Legal.{IsSmall};
ghost use Rattle.ix_legal.specs.Names.{IsNamed};
ghost use Rattle.ix_legal.specs.Sharing.{IsUnshared};
ghost use Rattle.ix_legal.specs.Spots.{Everywhere};
ghost use Rattle.ix_message.specs.Shape.{Text};
ghost use Rattle.ix_ends.specs.Ends.{AreEnds};
ghost use Rattle.ix_holders.specs.Holders.{AreHolders};

use ix_device::Device;
use ix_ends::{Ends, EndsFault};
use ix_graph::NodeGraph;
use ix_holders::{Holders, SharingFault};
use ix_legal::Level;
use ix_num::Memory;
use ix_rec::Phys;
use std::alloc::Global;

/// The ends of the segments. `Memory` is the only error.
pub(crate) fn ends_of(
    alloc: Global,
    device: &Device,
    graph: &NodeGraph,
    phys: &Phys,
) -> Result<Ends, Memory>
    requires graph { graph.now ≡ graph_of device.now }
    requires small { IsSmall phys.now }
    requires named { (names : List Text) × Everywhere (IsNamed names device.now phys.now) }
    ensures { IfOk result (AreEnds device.now phys.now) }
{
    match Ends::new(alloc, device, graph, phys) {
        Ok(ends) => Ok(ends),
        // Each segment has ends.
        Err(EndsFault::NoEnds(_, _)) => unreachable!(),
        Err(EndsFault::Memory) => Err(Memory),
    }
}

/// The holders of the resources. `Memory` is the only error.
pub(crate) fn holders_of(
    alloc: Global,
    device: &Device,
    graph: &NodeGraph,
    phys: &Phys,
    ends: &Ends,
    level: Level,
) -> Result<Holders, Memory>
    requires graph { graph.now ≡ graph_of device.now }
    requires small { IsSmall phys.now }
    requires ends { AreEnds device.now phys.now ends.now }
    requires unshared { Everywhere (IsUnshared level device.now phys.now) }
    ensures { IfOk result (AreHolders device.now phys.now ends.now) }
{
    match Holders::new(alloc, device, graph, phys, ends, level) {
        Ok(holders) => Ok(holders),
        // No segment shares an end.
        Err(SharingFault::Shared(_, _)) => unreachable!(),
        Err(SharingFault::Memory) => Err(Memory),
    }
}
