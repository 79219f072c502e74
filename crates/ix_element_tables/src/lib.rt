//! The rule that LUT elements have tables which give the LUTs in them functions (L9).
#![tactic(auto)]

mod first;
mod netlist;
mod noted;
mod whole;

pub use whole::first_without_function;
