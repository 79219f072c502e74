//! For each port bit of an instance the net inside it that names the same bit.
#![tactic(auto)]

mod inner;

pub use inner::inner_nets;
