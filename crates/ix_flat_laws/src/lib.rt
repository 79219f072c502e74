//! A flat design of a netlist is in range, named and whole.
#![tactic(auto)]

mod law;

pub use law::flat_designs_are_whole;
