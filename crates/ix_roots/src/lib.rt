//! Sets of numbers that are joined, each seen by its least number.
#![tactic(auto)]

mod roots;

pub use roots::{alone, join, settle};
