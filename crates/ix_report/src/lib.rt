//! The lines that the program prints.
#![tactic(auto)]

mod lines;
mod report;
mod words;

pub use lines::{OUT_OF_MEMORY_LINE, USAGE_LINE, line};
pub use report::Report;
