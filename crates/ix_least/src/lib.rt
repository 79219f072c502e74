//! Least paths: the path of least cost from given sources to a target, ties broken by edge numbers.
#![tactic(auto)]

mod asked;
mod front;
mod labels;
mod law;
mod path;
mod queue;
mod search;

pub use asked::{Bounds, Costs, Edges};
pub use law::least_paths_are_one;
pub use path::Path;
pub use search::Search;
