//! What the readers of all messages share: structs of a sound frame are taken one by one, each
//! number of theirs asked against its list, and the first that is out of it is told.
#![tactic(auto)]

mod at;
mod context;
mod laws;
mod names;
mod stop;
mod take;
mod walk;

pub use at::At;
pub use context::Context;
pub use laws::walk_finds_first;
pub use names::add_table;
pub use stop::Stop;
pub use take::{Take, take_list};
pub use walk::{KINDS, Walk};
