//! The bits of the top's ports, and the nets that they are on.
#![tactic(auto)]

mod bits;

pub use bits::top_bits;
