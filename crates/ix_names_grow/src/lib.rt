//! What was said over a table of names stays true as names are added.
#![tactic(auto)]

mod law;

pub use law::names_grow;
