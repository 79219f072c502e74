//! The tables that placed LUTs force, for a netlist that has none.
#![tactic(auto)]

mod constants;
mod forced;
mod forcing;
mod netlist;
mod pairs;
mod properties;
mod ties;
mod told;
mod whole;

pub use properties::has_tables;
pub use whole::{fill_tables, fill_tables_on};
