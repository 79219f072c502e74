//! LUT types, the LUT elements of site types and the BELs in them, found by number.
#![tactic(auto)]

mod filling;
mod places;

pub use places::LutPlaces;
