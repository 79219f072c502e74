//! Tests of the names and the records, with ample memory.
//!
//! What the contracts of those crates say is proved for all inputs. Tried here is that each call
//! succeeds where there is memory, and that a table of many names is fast enough to use.
#![tactic(auto)]

#[cfg(test)]
mod lists;
#[cfg(test)]
mod maps;
#[cfg(test)]
mod names;
