//! Tests of whole runs over real files. Runs over a shelf in memory are the cases of a program.
#![tactic(auto)]

#[cfg(test)]
mod real;
