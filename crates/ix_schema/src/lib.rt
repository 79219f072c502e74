//! The tables of the messages as values that code walks, and the first pass over a message, which
//! goes by them.
#![tactic(auto)]

mod branches;
mod device;
mod form;
mod laws;
mod message;
mod pass;
mod phys;
mod table;

pub use device::device_table;
pub use form::{Behind, StructForm};
pub use laws::readings_split;
pub use pass::pass_texts_behind;
pub use phys::phys_table;
pub use table::Table;
