//! The rules as a whole.

ghost use Rattle.std.specs.Prelude.{◌≡◌, IfOk};
ghost use Rattle.ix_graph.specs.Graph.{graph_of};
ghost use Rattle.ix_legal.specs.Legal.{IsAnswer, IsSound};

use crate::fault::Fault;
use crate::judge::judge;
use crate::netlist::Netlist;
use crate::place::place_of;
use ix_device::Device;
use ix_graph::NodeGraph;
use ix_legal::Level;
use ix_num::Memory;
use ix_rec::{Phys, Place, Rule};
use ix_strings::Names;
use std::alloc::Global;

/// The least of the rules L1 to L10 that a physical netlist breaks at a level, with the first place
/// of the walk at which it does; none exactly where the netlist is legal. The walk goes through
/// instances of sites, placements, nets with their segments, properties and then LUT elements, each
/// in the order of its list.
///
/// The graph is the device's, and the names are those of the device and of the netlist, as files are
/// read: the netlist's trees are in preorder.
///
/// It is linear in the netlist but for look-ups by a hash, which it does for names of placements,
/// segments and tables; and each rule is a pass of its own. Memory goes by segments (some 16 bytes
/// each), names, placements, the nodes and the sites of the device.
///
/// # Errors
///
/// Want of memory.
pub fn first_broken(
    alloc: Global,
    device: &Device,
    graph: &NodeGraph,
    phys: &Phys,
    names: &Names,
    level: Level,
) -> Result<Option<(Rule, Place)>, Memory>
    requires graph { graph.now ≡ graph_of device.now }
    requires sound { IsSound names.now phys.now }
    ensures answer { IfOk result (IsAnswer level names.now device.now phys.now) }
{
    let on = Netlist {
        device,
        graph,
        phys,
        names,
        level,
    };
    match judge(alloc, &on) {
        Ok(()) => Ok(None),
        Err(Fault::Broken(rule, spot)) => {
            let place = place_of(alloc, phys, names, spot)?;
            Ok(Some((rule, place)))
        }
        Err(Fault::Memory) => Err(Memory),
    }
}
