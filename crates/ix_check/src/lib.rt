//! Physical netlists judged against a flat design.
#![tactic(auto)]

mod check;
mod derived;
mod verdict;

pub use check::check_netlist;
pub use verdict::Verdict;
