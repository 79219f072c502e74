//! What packing starts from: the sites of fixed ports, the groups of cells that are packed
//! together, and whether there are BELs enough.
#![tactic(auto)]

mod bels;
mod cells;
mod counts;
mod grouping;
mod marks;
mod nets;
mod pins;
mod ports;
mod properties;
mod stays;

pub use counts::{Short, count_bels, first_short};
pub use grouping::groups;
pub use pins::{PinFault, fixed_pins};
pub use ports::Fixing;
