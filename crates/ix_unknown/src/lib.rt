//! The first leaf of a type that the device doesn't have: the rule N9.
#![tactic(auto)]

mod way;

pub use way::way_to_unknown;
