//! What the instances of each declaration are.
#![tactic(auto)]

mod of_declarations;

pub use of_declarations::{constant_of, kinds};
