//! The pins of leaves that are on nets.
#![tactic(auto)]

mod found;

pub use found::{pin, pins};
