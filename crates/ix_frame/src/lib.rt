//! Cap'n Proto frames, read in place: the segments of a file, and the structs, lists and texts that
//! its pointers lead to. Everything is a small value over the file's bytes; nothing is copied, and
//! nothing takes memory.
//!
//! The format is that of the Cap'n Proto encoding specification ("Serialization Over a Stream",
//! "Structs", "Lists", "Inter-Segment Pointers"), with the limits that `FrameRule` names.
#![tactic(auto)]

mod follow;
mod frame;
mod list;
mod object;
mod segment;
mod sound;
mod table;
mod target;

pub use frame::{Budget, Frame};
pub use list::{List, Numbers, Texts};
pub use object::Obj;
