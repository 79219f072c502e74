//! What a flat design is to be: its numbers in range, and whole. Here are definitions alone, for
//! the contracts of all crates that take a flat design or give one.
#![tactic(auto)]
