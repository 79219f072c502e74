//! The drivers and the sinks of nets: the rules N3 and N4.
#![tactic(auto)]

mod firsts;
mod states;

pub use firsts::{first_driven_twice, first_undriven};
pub use states::net_states;
