//! Writing a message of one segment, as the Cap'n Proto encoding specification lays it out.
#![tactic(auto)]

mod builder;
mod numbers;

pub use builder::{At, BuildFault, Builder, ListAt};
