//! Numbers of the LUT elements of the sites in use, and the elements in which cells are placed.
#![tactic(auto)]

mod bases;
mod laws;
mod numbers;

pub use laws::{element_is_one, instance_is_one, number_is_one};
pub use numbers::{ElementNumbers, InElement};
