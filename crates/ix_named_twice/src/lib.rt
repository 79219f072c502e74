//! Cells, and signal nets, that have one flat name.
#![tactic(auto)]

mod twice;

pub use twice::first_named_twice;
