//! How a design that was taken from a physical netlist differs from the flat design that it is to
//! implement: the least of the rules E1, E2 and E3 that isn't kept, and its first place.
#![tactic(auto)]

mod agrees;
mod cells;
mod earliest;
mod found;
mod named_net;
mod numbers;
mod pins;
mod place;
mod side;
mod whole;

pub use named_net::NamedNet;
pub use whole::first_difference;
