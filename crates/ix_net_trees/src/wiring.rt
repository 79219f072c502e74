//! A netlist on a device.

use ix_device::Device;
use ix_ends::Ends;
use ix_rec::Phys;

/// The nets of a netlist on a device.
#[derive(Clone, Copy)]
pub(crate) struct Wiring<'a> {
    /// The device.
    pub device: &'a Device,
    /// The netlist.
    pub phys: &'a Phys,
    /// The ends of its segments.
    pub ends: &'a Ends,
}
