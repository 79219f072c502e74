//! The pins of a flat design as a list.
#![tactic(auto)]

mod all;
mod leaves;
mod nets;
mod ports;

pub use all::flat_pins;
