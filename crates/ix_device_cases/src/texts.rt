//! Writing the parts of a record, each with a space behind it.

use ix_num::NameId;
use ix_rec::Items;
use ix_strings::Names;
use std::alloc::AllocError;

/// Writes a text; an empty one as a minus sign.
pub fn put_text(text: &mut String, word: &str) -> Result<(), AllocError> {
    if word.is_empty() {
        text.push_str("-")?;
    } else {
        text.push_str(word)?;
    }
    text.push_str(" ")
}

pub fn put_number(text: &mut String, n: u32) -> Result<(), AllocError> {
    write!(text, "{n} ")
}

/// Writes the text of a name, and a question mark for what is none of the names.
pub fn put_name(text: &mut String, names: &Names, id: NameId) -> Result<(), AllocError> {
    if id.get() < names.len() {
        put_text(text, names.name(id))
    } else {
        text.push_str("? ")
    }
}

/// Writes how many things a list has.
pub fn put_count(text: &mut String, count: usize) -> Result<(), AllocError> {
    write!(text, "{count}[ ")
}

pub fn put_end(text: &mut String) -> Result<(), AllocError> {
    text.push_str("] ")
}

pub fn put_names(text: &mut String, names: &Names, list: &Items<NameId>) -> Result<(), AllocError> {
    put_count(text, list.len())?;
    for i in 0..list.len() {
        put_name(text, names, *list.at(i))?;
    }
    put_end(text)
}

pub fn put_numbers(text: &mut String, list: &Items<u32>) -> Result<(), AllocError> {
    put_count(text, list.len())?;
    for i in 0..list.len() {
        put_number(text, *list.at(i))?;
    }
    put_end(text)
}
