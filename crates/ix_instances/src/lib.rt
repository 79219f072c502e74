//! The instances of a design in preorder, each with the number of its first occurrence of a net.
#![tactic(auto)]

mod instances;

pub use instances::Instances;
