//! The answer to a case.

use crate::changes::{apply_changes, names_of};
use crate::summary::{put_counts, put_names, put_netlist};
use ix_cases::{bytes_of, field};
use ix_frame::Frame;
use ix_logic_read::read_netlist;
use ix_rec::{NetlistRec, Place, ReadFault};
use ix_strings::Names;
use std::alloc::{AllocError, Global};

/// The most bytes that a file may have.
const MOST_BYTES: usize = 1 << 30;

/// The most names that there may be before a netlist is read.
const MOST_NAMES: u32 = 1 << 30;

/// Writes a fault.
fn put_fault(text: &mut String, fault: &ReadFault) -> Result<(), AllocError> {
    match fault {
        ReadFault::Frame(fault) => write!(text, "{fault}"),
        ReadFault::Index(Place::Item { kind, field, index }) => {
            write!(text, "I1 at {}.{} {index}", kind.as_str(), field.as_str())
        }
        ReadFault::Index(_) => text.push_str("I1 at another place"),
        ReadFault::Memory => text.push_str("out of memory"),
    }
}

/// Reads a file, where it is short enough and there are few enough names.
fn read(alloc: Global, file: &[u8], names: &mut Names) -> Result<NetlistRec, ReadFault> {
    if MOST_BYTES < file.len() || MOST_NAMES < names.len() {
        return Err(ReadFault::Memory);
    }
    match Frame::open(file) {
        Ok(frame) => read_netlist(alloc, &frame, names),
        Err(fault) => Err(ReadFault::Frame(fault)),
    }
}

/// A file's netlist or its fault in words: all that a netlist says and the names, or how long its
/// lists are.
pub fn told_of(
    alloc: Global,
    file: &[u8],
    names: &mut Names,
    whole: bool,
) -> Result<String, AllocError> {
    let mut text = String::new(alloc);
    match read(alloc, file, names) {
        Ok(netlist) => {
            if !whole {
                put_counts(&mut text, names, &netlist)?;
                return Ok(text);
            }
            put_netlist(&mut text, names, &netlist)?;
        }
        Err(fault) => put_fault(&mut text, &fault)?,
    }
    text.push_str("; names")?;
    put_names(&mut text, names)?;
    Ok(text)
}

/// The answer to a case, after what it shows. Where the case has a file, it is the last one.
pub fn try_case(alloc: Global, line: &str, last: &mut Vec<u8>) -> Result<String, AllocError> {
    if !field(line, 2).is_empty() {
        *last = bytes_of(alloc, field(line, 2))?;
    }
    let mut file = Vec::new(alloc);
    file.extend_from_slice(last.as_slice())?;
    apply_changes(file.as_mut_slice(), field(line, 3));
    let mut names = names_of(alloc, field(line, 1))?;
    let told = told_of(alloc, file.as_slice(), &mut names, true)?;
    let mut text = String::new(alloc);
    text.push_str(field(line, 0))?;
    text.push_str(": ")?;
    text.push_str(told.as_str())?;
    Ok(text)
}
