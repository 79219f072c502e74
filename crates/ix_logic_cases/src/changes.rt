//! What a case changes before its file is read.

use ix_cases::number;
use ix_strings::Names;
use std::alloc::{AllocError, Global};

/// The most names that a case may have before its file is read.
const MOST_NAMES: u32 = 1 << 20;

/// The names of a field, with blanks between them, numbered in their order.
pub fn names_of(alloc: Global, field: &str) -> Result<Names, AllocError> {
    let mut names = Names::new(alloc);
    for name in field.split_whitespace() {
        if names.len() < MOST_NAMES && names.add(name).is_err() {
            return Err(AllocError);
        }
    }
    Ok(names)
}

/// Puts a word of 32 bits at a byte. Bytes past the end are left out.
fn put_word(file: &mut [u8], at: u32, word: u32) {
    for (i, byte) in word.to_le_bytes().iter().enumerate() {
        if let Some(place) = file.get_mut((at as usize).saturating_add(i)) {
            *place = *byte;
        }
    }
}

/// Makes the changes of a field, with blanks between them.
pub fn apply_changes(file: &mut [u8], field: &str) {
    for change in field.split_whitespace() {
        if let Some((at, word)) = change.split_once(':') {
            put_word(file, number(at), number(word));
        }
    }
}
