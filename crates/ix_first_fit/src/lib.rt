//! Placing cells that have no nets: each cell, in order, takes the first BEL that is free and
//! admits it.
#![tactic(auto)]

mod by_type;
mod cell;
mod counts;
mod fault;
mod fit;
mod laws;
mod netlist;
mod pin_map;
mod places;
mod whole;

pub use cell::Spot;
pub use fault::FitFault;
pub use laws::fits_have_own_places;
pub use whole::first_fit;
