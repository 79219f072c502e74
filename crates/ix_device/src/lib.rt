//! A device that keeps all its rules, and what it tells by name and by number.
#![tactic(auto)]

mod admissions;
mod admitted;
mod check;
mod constants;
mod counts;
mod device;
mod element_places;
mod filling;
mod lines;
mod lut_inputs;
mod luts;
mod names;
mod numbered;
mod pins;
mod shapes;
mod site_pips;
mod site_sources;
mod sites;
mod tables;
mod tile_wires;
mod types;
mod usable;

pub use check::DeviceFault;
pub use device::Device;
pub use pins::PinList;
