//! Which net has each resource.

ghost use Rattle.std.specs.Prelude.{◌≡◌, ◌<◌, length, slice_get, Some, IfOk};
ghost use Rattle.ix_graph.specs.Graph.{graph_of};
ghost use Rattle.ix_legal.specs.Legal.{IsSmall};
ghost use Rattle.ix_legal.specs.Spots.{Everywhere};
ghost use Rattle.ix_legal.specs.Sharing.{IsUnshared};
ghost use Rattle.ix_ends.specs.Ends.{AreEnds};
ghost use Rattle.ix_holders.specs.Holders.{AreHolders, IsShared};
ghost use Rattle.ix_holders.specs.Marks.{MarksAt};

use crate::counted::counted;
use crate::marks::first_of_all;
use ix_device::Device;
use ix_ends::{Ends, graph_has_constants, graph_has_nodes};
use ix_graph::NodeGraph;
use ix_legal::Level;
use ix_num::Memory;
use ix_rec::Phys;
use std::alloc::Global;
use std::marker::Model;

/// Why there are no holders of a netlist's resources.
pub enum SharingFault {
    /// A net, and a segment of it that has an end which an earlier net has, or which is a node of a
    /// constant that isn't the net's: the first such in the walk.
    Shared(u32, u32),
    /// Want of memory.
    Memory,
}

/// By the numbers of its ends, the first net that has each resource of a netlist as an end. It takes
/// 4 bytes a number.
#[derive(Drop)]
pub struct Holders {
    marks: Vec<u32>,
}

impl Model for Holders {
    ghost use Rattle.std.specs.Prelude.{List, Option, ℕ, map};
    ghost use Rattle.ix_holders.specs.Holders.{net_of};

    ghost Value = { List (Option ℕ) };

    ghost view = { λ h. map net_of h.marks.items };
}

// A mark for each number, none of them set.
fn no_marks(alloc: Global, device: &Device, phys: &Phys, ends: &Ends) -> Result<Vec<u32>, Memory>
    ensures { IfOk result (λ marks. MarksAt device.now ends.now phys.now 0 0 marks.items) }
{
    let mut marks = Vec::new(alloc);
    marks.resize(ends.count() as usize, 0)?;
    Ok(marks)
}

impl Holders {
    /// The holders of a netlist's resources; or the first segment that breaks L7 at this level. The
    /// graph is the device's, and the ends are those of the netlist. It is linear in the number of
    /// segments and of resources.
    pub fn new(
        alloc: Global,
        device: &Device,
        graph: &NodeGraph,
        phys: &Phys,
        ends: &Ends,
        level: Level,
    ) -> Result<Holders, SharingFault>
        requires graph { graph.now ≡ graph_of device.now }
        requires ends { AreEnds device.now phys.now ends.now }
        requires small { IsSmall phys.now }
        ensures holders { IfOk result (AreHolders device.now phys.now ends.now) }
        ensures kept { IfOk result (λ h. Everywhere (IsUnshared level device.now phys.now)) }
        ensures shared { IsShared level device.now phys.now result }
    {
        let counted = match counted(alloc, device, phys, ends, level) {
            Ok(counted) => counted,
            Err(_) => return Err(SharingFault::Memory),
        };
        let mut marks = match no_marks(alloc, device, phys, ends) {
            Ok(marks) => marks,
            Err(_) => return Err(SharingFault::Memory),
        };
        // The graph tells the constants of the record.
        graph_has_nodes();
        graph_has_constants();
        match first_of_all(device, graph, phys, ends, &counted, &mut marks) {
            Some((net, segment)) => Err(SharingFault::Shared(net, segment)),
            None => Ok(Holders { marks }),
        }
    }

    /// The first net that has the resource of this number as an end; none where no net has it.
    pub fn first(&self, number: u32) -> Option<u32>
        requires { number < length self.now }
        ensures { slice_get self.now number ≡ Some result }
    {
        self.marks[number as usize].checked_sub(1)
    }
}
