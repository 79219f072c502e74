//! The ends of a netlist's segments, by number: what the crates that judge trees and sharing look
//! at in place of names.
#![tactic(auto)]

mod ends;
mod laws;
mod numbers;
mod pair;
mod pairs;
mod stop;

pub use ends::{Ends, EndsFault};
pub use laws::{ends_are_there, graph_has_constants, graph_has_nodes};
pub use pair::Pair;
