//! The leaves of a design that are cells of its flat design.
#![tactic(auto)]

mod leaves;

pub use leaves::put_leaves;
