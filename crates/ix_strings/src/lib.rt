//! The table of the names of a run. Each text has one number, under which records hold it.
#![tactic(auto)]

mod names;

pub use names::Names;
