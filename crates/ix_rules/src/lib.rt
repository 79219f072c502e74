//! Whether a physical netlist is legal on a device: the least rule of L1 to L10 that it breaks, and
//! the first place at which it does.
#![tactic(auto)]

mod fault;
mod judge;
mod netlist;
mod place;
mod stages;
mod whole;

pub use whole::first_broken;
