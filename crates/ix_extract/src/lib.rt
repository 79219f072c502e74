//! The design that a physical netlist realizes.
#![tactic(auto)]

mod cells;
mod flat;
mod held;
mod holding;
mod pin_maps;
mod pins;
mod ports;
mod signals;
mod tables;
mod whole;

pub use whole::{extract, extract_on};
