//! What is looked at when roots are judged.

use ix_device::Device;
use ix_ends::Ends;
use ix_graph::NodeGraph;
use ix_keys::Keys;
use ix_rec::Phys;
use ix_uses::Uses;

/// What is known of a netlist on a device.
#[derive(Clone, Copy)]
pub(crate) struct Known<'a> {
    /// The device.
    pub device: &'a Device,
    /// The device's node graph.
    pub graph: &'a NodeGraph,
    /// The netlist.
    pub phys: &'a Phys,
    /// The ends of its segments.
    pub ends: &'a Ends,
    /// The BELs that have cells.
    pub uses: &'a Uses,
    /// The BEL pins that pin maps name.
    pub mapped: &'a Keys,
}
