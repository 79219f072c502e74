//! What the writers of messages share: for each struct of a message a type says which names it uses
//! and how it is written into a builder; lists of structs, the string table and whole messages are
//! written by one function each.
#![tactic(auto)]

mod lists;
mod message;
mod row;
mod string_table;
mod struct_writer;
mod texts;

pub use lists::{note_list, write_list};
pub use message::write_message;
pub use row::write_row;
pub use string_table::Strings;
pub use struct_writer::StructWriter;
pub use texts::{names_are_utf8, write_strings, write_text};
