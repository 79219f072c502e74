//! The rule N2: port bits of one cell, or of one instance.
#![tactic(auto)]

mod entries;
mod first;
mod repeats;

pub use first::first_twice;
