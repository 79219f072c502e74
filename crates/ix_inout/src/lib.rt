//! Bits of the top and pins of leaves that go both ways and are on nets: the rule N8.
#![tactic(auto)]

mod inout;

pub use inout::first_inout;
