//! What is judged.

use ix_device::Device;
use ix_graph::NodeGraph;
use ix_legal::Level;
use ix_rec::Phys;
use ix_strings::Names;

/// A netlist on a device, and the level at which it is judged.
#[derive(Clone, Copy)]
pub(crate) struct Netlist<'a> {
    /// The device.
    pub device: &'a Device,
    /// The device's graph.
    pub graph: &'a NodeGraph,
    /// The netlist.
    pub phys: &'a Phys,
    /// The names of both.
    pub names: &'a Names,
    /// The level.
    pub level: Level,
}
