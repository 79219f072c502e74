//! Files that are made of pieces of others.

use crate::hex::bytes_of;
use std::alloc::{AllocError, Global};

/// The bytes of a word.
const WORD_BYTES: usize = 8;

/// Which words a piece stands for that is written `=N+M`: the first of them and how many.
fn copied(piece: &str) -> Option<(usize, usize)> {
    let (first, many) = piece.strip_prefix('=')?.split_once('+')?;
    Some((first.parse::<usize>().ok()?, many.parse::<usize>().ok()?))
}

/// Adds the words of a file from one on; those past its end are left out.
fn push_words(
    bytes: &mut Vec<u8>,
    file: &[u8],
    first: usize,
    many: usize,
) -> Result<(), AllocError> {
    let start = first.saturating_mul(WORD_BYTES);
    let end = start.saturating_add(many.saturating_mul(WORD_BYTES));
    match file.get(start..end) {
        Some(words) => bytes.extend_from_slice(words),
        None => Ok(()),
    }
}

/// Adds the bytes of these digits so many times.
fn push_often(
    alloc: Global,
    bytes: &mut Vec<u8>,
    many: usize,
    digits: &str,
) -> Result<(), AllocError> {
    let new = bytes_of(alloc, digits)?;
    for _ in 0..many {
        bytes.extend_from_slice(&new)?;
    }
    Ok(())
}

/// The file that is made of these pieces, between which a separator stands: `=N+M` for M words of
/// another file from word N on, and new words in hexadecimal digits, behind `N*` where they stand N
/// times.
pub fn joined(
    alloc: Global,
    file: &[u8],
    pieces: &str,
    separator: char,
) -> Result<Vec<u8>, AllocError> {
    let mut bytes = Vec::new(alloc);
    for piece in pieces.split(separator) {
        match (copied(piece), piece.split_once('*')) {
            (Some((first, many)), _) => push_words(&mut bytes, file, first, many)?,
            (None, Some((many, digits))) => {
                push_often(
                    alloc,
                    &mut bytes,
                    many.parse::<usize>().unwrap_or(0),
                    digits,
                )?
            }
            (None, None) => push_often(alloc, &mut bytes, 1, piece)?,
        }
    }
    Ok(bytes)
}
