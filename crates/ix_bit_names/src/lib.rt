//! The written names of the port bits that nets name, as numbers of names.
#![tactic(auto)]

mod written;

pub use written::written_names;
