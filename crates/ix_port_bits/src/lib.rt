//! The rows of port bits that the nets of cells name, their written names, and the rule N2.
#![tactic(auto)]

mod filling;

pub use filling::all_rows;
