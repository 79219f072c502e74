//! What the programs that try cases share: the fields of a line, bytes written as hexadecimal
//! digits, and files made of pieces of others.
//!
//! A file of cases has a case on each line, its fields with `|` between them; the first field says
//! what the case shows. A program prints a line for each case, and its stored output is the table
//! of answers.
#![tactic(auto)]

mod fields;
mod hex;
mod pieces;

pub use fields::{field, is_case, number};
pub use hex::bytes_of;
pub use pieces::joined;
