//! Jobs: what is read, written, printed and left after a fault, for any work on files.
//!
//! A job reads its inputs to their end, asks its work what they come to, writes the outputs, and
//! prints a line. What such a run does to the outside is said and proved here once; a command adds
//! its work alone.
#![tactic(auto)]

mod inputs;
mod lines;
mod outputs;
mod run;
mod stop;
mod work;

pub use run::run_job;
pub use stop::{Stop, refused};
pub use work::{Content, Outcome, Work};
