//! What first fit gives is a legal routed netlist.
#![tactic(auto)]

mod law;

pub use law::fits_are_legal;
