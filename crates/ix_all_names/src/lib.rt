//! The cells and the signal nets of a flat design, with their names.
#![tactic(auto)]

mod naming;

pub use naming::add_names;
