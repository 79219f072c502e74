//! The bytes of a file, with changes.

use ix_cases::bytes_of;
use std::alloc::{AllocError, Global};

/// Changes a byte, where it is there.
fn set_byte(bytes: &mut Vec<u8>, at: usize, byte: u8) {
    if at < bytes.len() {
        bytes[at] = byte;
    }
}

/// Makes a change that is written as `708=3`: at which byte, and what it becomes.
fn change(bytes: &mut Vec<u8>, word: &str) {
    if let Some((at, byte)) = word.split_once('=') {
        let at = at.parse::<usize>().unwrap_or(usize::MAX);
        set_byte(bytes, at, byte.parse::<u8>().unwrap_or(0));
    }
}

/// The bytes of these hexadecimal digits, with these changes.
pub fn changed_bytes(alloc: Global, hex: &str, changes: &str) -> Result<Vec<u8>, AllocError> {
    let mut bytes = bytes_of(alloc, hex)?;
    for word in changes.split(' ') {
        change(&mut bytes, word);
    }
    Ok(bytes)
}
