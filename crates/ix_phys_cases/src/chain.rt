//! Files with a chain of branches.

use std::alloc::{AllocError, Global};

/// The words of a branch's data.
const DATA_BYTES: usize = 24;

/// The pointer to a list of one branch that stands right behind it, and the list's tag.
const LIST: [u8; 16] = [1, 0, 0, 0, 39, 0, 0, 0, 4, 0, 0, 0, 3, 0, 1, 0];

/// A file of one segment whose last branch, which ends with the file, is repeated until there are
/// so many, each the only one below the one before.
pub fn chain_of(alloc: Global, file: &[u8], many: u32) -> Result<Vec<u8>, AllocError> {
    let mut bytes = Vec::new(alloc);
    let Some(front) = file.len().checked_sub(8) else {
        return Ok(bytes);
    };
    let Some(data) = front.checked_sub(DATA_BYTES) else {
        return Ok(bytes);
    };
    bytes.extend_from_slice(&file[..front])?;
    for _ in 1..many {
        bytes.extend_from_slice(&LIST)?;
        bytes.extend_from_slice(&file[data..front])?;
    }
    bytes.extend_from_slice(&[0; 8])?;
    let words = u32::try_from((bytes.len() / 8).saturating_sub(1)).unwrap_or(0);
    for (i, byte) in words.to_le_bytes().iter().enumerate() {
        if let Some(place) = bytes.get_mut(4 + i) {
            *place = *byte;
        }
    }
    Ok(bytes)
}
