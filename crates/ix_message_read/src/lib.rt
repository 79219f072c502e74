//! What the readers of messages share: a struct of a message is a type that can be read from a
//! frame, and lists of structs, of numbers and of texts are read by one function each.
#![tactic(auto)]

mod from_message;
mod numbers;
mod structs;
mod texts;

pub use from_message::{FromMessage, read_list};
pub use numbers::read_numbers;
pub use structs::{Raw, read_message, read_struct};
