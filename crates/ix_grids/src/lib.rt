//! Grids of points, what their points cost, and bounds: for the programs that try and time searches
//! of least paths.
#![tactic(auto)]

mod bounds;
mod cells;
mod grid;

pub use bounds::{Table, are_consistent, distances};
pub use cells::Cells;
pub use grid::Grid;
