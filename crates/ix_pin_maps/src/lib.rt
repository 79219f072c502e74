//! Rule L3, pin maps fit the device, and where a placed LUT's pin map has its inputs.
#![tactic(auto)]

mod entries;
mod inputs;
mod laws;
mod marks;
mod misfits;

pub use inputs::{InputPlaces, input_places};
pub use laws::{inputs_differ, places_are_one};
pub use misfits::first_misfit;
