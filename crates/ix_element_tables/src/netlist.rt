//! What elements are judged by.

use ix_device::Device;
use ix_element_numbers::ElementNumbers;
use ix_ends::Ends;
use ix_holders::Holders;
use ix_lut_places::LutPlaces;
use ix_rec::Phys;
use ix_strings::Names;

/// A netlist on a device, with the tables that tell what is in it.
#[derive(Clone, Copy)]
pub(crate) struct Netlist<'a> {
    /// The names.
    pub names: &'a Names,
    /// The device.
    pub device: &'a Device,
    /// The netlist.
    pub phys: &'a Phys,
    /// The LUTs of the device.
    pub places: &'a LutPlaces,
    /// The numbers of the elements of its instances.
    pub numbers: &'a ElementNumbers,
    /// The ends of its segments.
    pub ends: &'a Ends,
    /// The holders of its resources.
    pub holders: &'a Holders,
}
