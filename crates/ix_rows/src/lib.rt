//! Rows of items in compressed form, filled in two passes: first the size of each row is counted,
//! then each item is put into its row.
#![tactic(auto)]

mod filler;
mod rows;
mod sizes;
mod starts;

pub use filler::RowFiller;
pub use rows::Rows;
pub use sizes::RowSizes;
