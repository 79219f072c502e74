//! What a list of instances tells.
#![tactic(auto)]

mod laws;
mod lists;

pub use laws::numbers_are_order;
pub use lists::{of_net, record_of};
