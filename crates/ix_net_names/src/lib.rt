//! The names of the signal nets of a flat design.
#![tactic(auto)]

mod naming;

pub use naming::put_net_names;
