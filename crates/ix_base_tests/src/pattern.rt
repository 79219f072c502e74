//! Bytes to fill files with.

use std::alloc::{AllocError, Global};

/// So many bytes, which repeat after 251, so that pieces of them differ.
pub fn pattern(alloc: Global, length: usize) -> Result<Vec<u8>, AllocError> {
    let mut bytes = Vec::new(alloc);
    let mut next = 0u8;
    for _ in 0..length {
        bytes.push(next)?;
        next = if next < 250 { next + 1 } else { 0 };
    }
    Ok(bytes)
}
