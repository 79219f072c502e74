//! The cells and the signal nets of a flat design, as lists by number before it is made.
#![tactic(auto)]

mod named;
mod port_names;

pub use named::Named;
pub use port_names::PortNames;
