//! The pins of a flat design as a map, and the drivers of its nets.
#![tactic(auto)]

mod flat_pin;
mod wiring;

pub use flat_pin::FlatPin;
pub use wiring::{Wiring, wired};
