//! Which net has each resource, and the rules on sharing: L7, that no resource has two holders; L8,
//! that wires are those of sites in use; L10, that a routed netlist has no stubs.
#![tactic(auto)]

mod counted;
mod holders;
mod marks;
mod segment;

pub use holders::{Holders, SharingFault};
