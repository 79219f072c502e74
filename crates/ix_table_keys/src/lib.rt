//! The tables of LUT elements that a physical netlist has as properties, found by site and element.
#![tactic(auto)]

mod laws;
mod places;
mod tables;

pub use laws::table_is_one;
pub use places::{PlacesByName, instances_by_name};
pub use tables::TableKeys;
