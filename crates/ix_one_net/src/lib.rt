//! Which occurrences of nets are one net.
#![tactic(auto)]

mod firsts;

pub use firsts::first_occurrences;
