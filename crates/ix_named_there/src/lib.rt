//! The rule that what a physical netlist names is there (L1).
#![tactic(auto)]

mod bits;
mod instances;
mod keys;
mod nets;
mod placements;
mod properties;
mod whole;

pub use bits::table_bits_of;
pub use whole::first_unnamed;
