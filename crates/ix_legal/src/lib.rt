//! What a legal physical netlist is: the rules L1 to L10 of a netlist on a device, at level placed
//! and at level routed, and what follows from them. Definitions and laws; no code judges a netlist
//! here.
#![tactic(auto)]

mod cases;
mod laws;
mod level;
mod spot;

pub use cases::small_netlists;
pub use laws::{
    answers_are_one, broken_is_not_legal, holders_are_one, routed_is_placed, trees_follow,
};
pub use level::Level;
pub use spot::Spot;
