//! The nets of a flat design, with their drivers and their pins, from its lists.
#![tactic(auto)]

mod all;

pub use all::flat_nets;
