//! The first name of a list that stands a second time.
#![tactic(auto)]

mod second;

pub use second::first_second;
