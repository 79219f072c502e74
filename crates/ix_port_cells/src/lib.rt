//! The port cells of a flat design.
#![tactic(auto)]

mod cells;

pub use cells::put_port_cells;
