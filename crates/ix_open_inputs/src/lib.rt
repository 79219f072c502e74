//! Inputs of LUT cells that are open, on no net that has a sink, and the first of a cell's.
#![tactic(auto)]

mod first;
mod index;
mod joining;

pub use first::first_open;
pub use joining::open_inputs;
