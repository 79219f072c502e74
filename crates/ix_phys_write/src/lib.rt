//! Writing a physical netlist.
#![tactic(auto)]

mod branches;
mod cells;
mod laws;
mod netlist;
mod nets;
mod widths;

pub use laws::forests_are_their_trees;
pub use netlist::write_phys;
