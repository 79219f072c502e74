//! The rules that are asked of a netlist's declarations before any instance is listed: N1, N2, N9
//! and N10.
#![tactic(auto)]

mod asking;
mod fault;
mod joining;

pub use asking::{Known, ask};
pub use fault::{DesignFault, broken};
pub use joining::join;
