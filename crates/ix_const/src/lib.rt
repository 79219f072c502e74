//! Constants: the nodes of one, and the cell types that stand for one.
#![tactic(auto)]

mod cells;
mod nodes;

pub use cells::is_const_cell;
pub use nodes::const_nodes;
