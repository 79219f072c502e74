//! What is read of a physical netlist is such as the rules on legal netlists ask.
#![tactic(auto)]

mod laws;

pub use laws::{read_netlists_are_sound, read_netlists_have_room};
