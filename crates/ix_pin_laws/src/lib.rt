//! What the pins of a flat design are told by, and how large one is.
#![tactic(auto)]

mod law;

pub use law::{designs_are_small, pins_are_apart, port_cells_are_counted};
