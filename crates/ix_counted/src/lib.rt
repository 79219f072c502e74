//! How many places a design has before any is listed: the rule N10.
#![tactic(auto)]

mod count;

pub use count::is_too_large;
