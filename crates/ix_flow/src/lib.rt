//! The program over any shelf and sink.
#![tactic(auto)]

mod answer;
mod check;
mod check_work;
mod program;
mod status;
mod words;
mod work;

pub use program::run;
pub use status::Status;
