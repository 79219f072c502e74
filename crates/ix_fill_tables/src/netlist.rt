//! What elements are filled by.

use crate::constants::ConstantWires;
use crate::told::ToldTables;
use ix_device::Device;
use ix_lut_places::LutPlaces;
use ix_rec::{Flat, Phys};
use ix_table_keys::PlacesByName;

/// A netlist on a device and a flat design, with the tables that tell what is in them.
#[derive(Clone, Copy)]
pub(crate) struct Netlist<'a> {
    /// The device.
    pub device: &'a Device,
    /// The design.
    pub flat: &'a Flat,
    /// The netlist.
    pub phys: &'a Phys,
    /// How many names there are.
    pub names: u32,
    /// The LUTs of the device.
    pub places: &'a LutPlaces,
    /// The first instance of each site, by the number of its name.
    pub instances: &'a PlacesByName,
    /// The site wires that constants hold.
    pub constants: &'a ConstantWires,
    /// The tables of the design's cells.
    pub told: &'a ToldTables,
}
