//! Bytes from hexadecimal digits.

use std::alloc::{AllocError, Global};

/// What a digit stands for; `None` for another character.
fn digit_of(c: u8) -> Option<u8> {
    match c {
        b'0'..=b'9' => Some(c - b'0'),
        b'a'..=b'f' => Some(c - b'a' + 10),
        _ => None,
    }
}

/// The byte of two digits.
fn joined(high: u8, low: u8) -> u8 {
    high % 16 * 16 + low % 16
}

/// The bytes that the digits of a text write, two digits a byte. Other characters are passed over.
pub fn bytes_of(alloc: Global, text: &str) -> Result<Vec<u8>, AllocError> {
    let mut bytes = Vec::new(alloc);
    let mut high: Option<u8> = None;
    for c in text.as_bytes() {
        if let Some(digit) = digit_of(*c) {
            match high {
                None => high = Some(digit),
                Some(first) => {
                    bytes.push(joined(first, digit))?;
                    high = None;
                }
            }
        }
    }
    Ok(bytes)
}
