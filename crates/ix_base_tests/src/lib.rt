//! Tests of the crates at the bottom: that calls succeed where there is memory, real files and
//! standard output, and printed lines.
//!
//! What the contracts of those crates say is proved for all inputs. Frames, devices and whole runs
//! are tried by programs that read their cases from files.
#![tactic(auto)]

#[cfg(test)]
mod edge;
#[cfg(test)]
mod pattern;
#[cfg(test)]
mod shelves;
#[cfg(test)]
mod written;
