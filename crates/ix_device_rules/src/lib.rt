//! The rules of a valid device.
#![tactic(auto)]

mod first_broken;
mod kinds;
mod lut_elements;
mod lut_elements_stand;
mod named;
mod names_differ;
mod number;
mod pins_have_bels;
mod pins_on_one_wire;
mod site_pins_have_wires;
mod size;
mod stop;
mod tables;
mod tiles_are_few;
mod walk;
mod wires_stand;

pub use first_broken::first_broken_rule;
