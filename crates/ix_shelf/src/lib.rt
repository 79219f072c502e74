//! The outside, seen from the program: a shelf of named files and a sink for printed bytes.
//!
//! Both are traits, so that the program is proved over every shelf and every sink, and tried over
//! ones in memory that fail when they are told to. `DiskShelf` and `OutSink` are the trusted edge
//! to real files and to standard output.
#![tactic(auto)]

mod disk_shelf;
mod files;
mod limit;
mod mem_files;
mod mem_shelf;
mod mem_sink;
mod out_sink;
mod plan;
mod shelf;
mod sink;

pub use disk_shelf::DiskShelf;
pub use files::{FileFault, MOST_BYTES, read_file, write_file};
pub use mem_shelf::MemShelf;
pub use mem_sink::MemSink;
pub use out_sink::OutSink;
pub use shelf::{Failed, Shelf};
pub use sink::{Sink, say};
