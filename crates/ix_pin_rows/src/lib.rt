//! The rows that name port bits of an instance.
#![tactic(auto)]

mod found;

pub use found::{RowsOf, rows_of};
