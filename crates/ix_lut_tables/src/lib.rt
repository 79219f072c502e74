//! The truth tables of LUT cells.
#![tactic(auto)]

mod of_instances;
mod types;

pub use of_instances::tables;
pub use types::{lut_of, lut_types};
