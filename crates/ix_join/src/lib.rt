//! The instances and nets of a netlist that keeps the rules which are asked of its declarations.
#![tactic(auto)]

mod joining;

pub use joining::join_all;
