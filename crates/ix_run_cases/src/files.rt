//! Files of a memory shelf, given as words `r=NAME`.

use crate::deep::deep_design;
use ix_cases::{bytes_of, joined, number};
use ix_shelf::MemShelf;
use std::alloc::{AllocError, Global};
use std::{fs, io};

/// The bytes of a file of hexadecimal digits; of the digits themselves where a `#` stands before
/// them; a design of so many levels where an `@` stands before their number; pieces of a file, with
/// commas between them, where they stand behind its name and a `:`.
fn read_hex(rt: &HostRuntime, name: &str) -> io::Result<Vec<u8>> {
    if let Some(levels) = name.strip_prefix('@') {
        return Ok(deep_design(rt.alloc(), number(levels))?);
    }
    if let Some(digits) = name.strip_prefix('#') {
        return Ok(bytes_of(rt.alloc(), digits)?);
    }
    if let Some((base, pieces)) = name.split_once(':') {
        let file = bytes_of(rt.alloc(), &fs::read_to_string(rt, base)?)?;
        return Ok(joined(rt.alloc(), &file, pieces, ',')?);
    }
    let digits = fs::read_to_string(rt, name)?;
    Ok(bytes_of(rt.alloc(), &digits)?)
}

/// Puts the file of a word on a shelf.
fn put_file(rt: &HostRuntime, shelf: &mut MemShelf, word: &str) -> io::Result<()> {
    if let Some((name, from)) = word.split_once('=') {
        let bytes = read_hex(rt, from)?;
        if shelf.set(name, &bytes).is_err() {
            return Err(AllocError.into());
        }
    }
    Ok(())
}

/// A memory shelf with these files.
pub fn shelf_of(rt: &HostRuntime, words: &str) -> io::Result<MemShelf> {
    let mut shelf = MemShelf::new(rt.alloc());
    for word in words.split(' ') {
        put_file(rt, &mut shelf, word)?;
    }
    Ok(shelf)
}

/// The first byte at which two files differ, or the length of the shorter; `None` where they are
/// alike.
fn first_difference(a: &[u8], b: &[u8]) -> Option<usize> {
    for i in 0..a.len().min(b.len()) {
        if a[i] != b[i] {
            return Some(i);
        }
    }
    if a.len() == b.len() {
        None
    } else {
        Some(a.len().min(b.len()))
    }
}

/// Writes how the file of this name differs on two shelves; nothing where it doesn't.
pub fn put_difference(
    text: &mut String,
    name: &str,
    is: &MemShelf,
    wanted: &MemShelf,
) -> Result<(), AllocError> {
    match (is.file(name), wanted.file(name)) {
        (None, None) => Ok(()),
        (Some(_), None) => write!(text, ", {name} is there"),
        (None, Some(_)) => write!(text, ", {name} isn't there"),
        (Some(is), Some(wanted)) => match first_difference(is, wanted) {
            Some(at) => write!(text, ", {name} differs at byte {at}"),
            None => Ok(()),
        },
    }
}

/// Writes what is left of the file `r`, by the files before and those that are wanted.
pub fn put_left(
    text: &mut String,
    is: &MemShelf,
    before: &MemShelf,
    wanted: &MemShelf,
) -> Result<(), AllocError> {
    let (Some(whole), Some(left)) = (wanted.file("r"), is.file("r")) else {
        return text.push_str(", no r");
    };
    let length = left.len();
    if Some(left) == before.file("r") {
        text.push_str(", r as before")
    } else if left == whole {
        text.push_str(", r whole")
    } else if first_difference(left, whole) == Some(length) {
        write!(text, ", r of {length} bytes")
    } else {
        text.push_str(", another r")
    }
}

/// The command line of these words, which have commas between them.
pub fn words_of(alloc: Global, line: &str) -> Result<Vec<String>, AllocError> {
    let mut words = Vec::new(alloc);
    for word in line.split(',') {
        words.push(String::from_str(alloc, word)?)?;
    }
    Ok(words)
}
