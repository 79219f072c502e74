//! Flat names: the names of the instances on a way, joined by slashes.
#![tactic(auto)]

mod texts;

pub use texts::{joined_names, path_text, put_bit, text_in};
