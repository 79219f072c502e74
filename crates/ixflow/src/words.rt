//! The words of the command line.

use std::alloc::{AllocError, Global};
use std::env::{Env, FillError};

// The room that is tried first for a word. It doubles until the word fits.
const FIRST_ROOM: usize = 256;

// The bytes of the word with this number, or nothing after the last. `AllocError` where they find
// no memory.
fn word_bytes(env: &impl Env, alloc: Global, number: usize) -> Result<Option<Vec<u8>>, AllocError> {
    let mut room = FIRST_ROOM;
    for _ in 0..usize::BITS {
        let mut bytes = Vec::new(alloc);
        bytes.resize(room, 0u8)?;
        match env.arg(number, bytes.as_mut_slice()) {
            Ok(len) => {
                bytes.truncate(len);
                return Ok(Some(bytes));
            }
            Err(FillError::NotPresent) => return Ok(None),
            Err(FillError::TooLong) => room = room.saturating_mul(2),
        }
    }
    Err(AllocError)
}

/// The words after the program's name. A word that isn't UTF-8 is taken with replacement
/// characters.
pub(crate) fn command_words(env: &impl Env, alloc: Global) -> Result<Vec<String>, AllocError> {
    let mut words = Vec::new(alloc);
    for number in 1..usize::MAX {
        match word_bytes(env, alloc, number)? {
            Some(bytes) => words.push(String::from_utf8_lossy(alloc, bytes.as_slice())?)?,
            None => break,
        }
    }
    Ok(words)
}
