//! The port bits that the nets of each cell name, in rows.
#![tactic(auto)]

mod rows;

pub use rows::Rows;
