//! The cells of each declaration, and the declarations that the top of a design reaches: the rule
//! N1.
#![tactic(auto)]

mod cells;
mod search;
mod whole;

pub use whole::{Reach, ReachFault, reached};
