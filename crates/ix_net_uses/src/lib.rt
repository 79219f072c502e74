//! What nets may go through: L8, that wires are those of sites in use; and L10, that a routed netlist
//! has no stubs.
#![tactic(auto)]

mod in_use;
mod stubs;

pub use in_use::first_out_of_use;
pub use stubs::first_stub;
