//! The answer to a case.

ghost use Rattle.std.specs.Prelude.{◌≡◌, ◌+◌, ◌-◌, ◌^◌, ◌<◌, length, IfOk};
ghost use Rattle.ix_phys_write.specs.Record.{IsPhysNamed};

use crate::chain::chain_of;
use crate::summary::{put_chain, put_netlist};
use ix_cases::{bytes_of, field, number};
use ix_frame::Frame;
use ix_phys_read::read_phys;
use ix_phys_write::write_phys;
use ix_rec::{Phys, Place, ReadFault};
use ix_strings::Names;
use std::alloc::{AllocError, Global};

/// The most bytes that a file may have.
const MOST_BYTES: usize = 1 << 30;

/// The most names that there may be before a netlist is read.
const MOST_NAMES: u32 = 1 << 30;

/// Writes a fault.
fn put_fault(text: &mut String, fault: &ReadFault) -> Result<(), AllocError> {
    match fault {
        ReadFault::Frame(fault) => write!(text, "{fault}"),
        ReadFault::Index(Place::Item { kind, field, index }) => {
            write!(text, "I1 at {}.{} {index}", kind.as_str(), field.as_str())
        }
        ReadFault::Index(_) => text.push_str("I1 at another place"),
        ReadFault::Memory => text.push_str("out of memory"),
    }
}

/// Reads a file, where it is short enough and there are few enough names.
fn read(alloc: Global, file: &[u8], names: &mut Names) -> Result<Phys, ReadFault>
    ensures { IfOk result (IsPhysNamed names.new) }
{
    if MOST_BYTES < file.len() || MOST_NAMES < names.len() {
        return Err(ReadFault::Memory);
    }
    match Frame::open(file) {
        Ok(frame) => read_phys(alloc, &frame, names),
        Err(fault) => Err(ReadFault::Frame(fault)),
    }
}

/// Writes how a netlist is told, a chain by its length.
fn put_summary(
    text: &mut String,
    line: &str,
    names: &Names,
    phys: &Phys,
) -> Result<(), AllocError> {
    if field(line, 2).is_empty() {
        put_netlist(text, names, phys)
    } else {
        put_chain(text, phys)
    }
}

/// Whether a file is read as a netlist that is told so.
fn has_summary(alloc: Global, line: &str, file: &[u8], wanted: &str) -> Result<bool, AllocError> {
    let mut names = Names::new(alloc);
    let mut text = String::new(alloc);
    match read(alloc, file, &mut names) {
        Ok(phys) => put_summary(&mut text, line, &names, &phys)?,
        Err(fault) => put_fault(&mut text, &fault)?,
    }
    Ok(text.as_str() == wanted)
}

/// Writes how the file that is written of a netlist compares with the one that it was read of, and
/// whether it reads again as the netlist.
fn put_again(
    alloc: Global,
    text: &mut String,
    line: &str,
    file: &[u8],
    names: &Names,
    phys: &Phys,
) -> Result<(), AllocError>
    requires { IsPhysNamed names.now phys.now }
{
    let mut summary = String::new(alloc);
    put_summary(&mut summary, line, names, phys)?;
    text.push_str(summary.as_str())?;
    match write_phys(alloc, phys, names) {
        Ok(written) => {
            if written.as_slice() == file {
                text.push_str("; written as it was")?;
            } else {
                text.push_str("; written otherwise")?;
            }
            if has_summary(alloc, line, written.as_slice(), summary.as_str())? {
                text.push_str(", reads again")
            } else {
                text.push_str(", reads otherwise")
            }
        }
        Err(_) => text.push_str("; not written"),
    }
}

/// Reads the file of a case, and writes what it is.
fn put_case(alloc: Global, text: &mut String, line: &str, file: &[u8]) -> Result<(), AllocError> {
    let mut names = Names::new(alloc);
    match read(alloc, file, &mut names) {
        Ok(phys) => put_again(alloc, text, line, file, &names, &phys),
        Err(fault) => put_fault(text, &fault),
    }
}

/// The answer to a case, after what it shows.
pub fn answer_to(alloc: Global, line: &str) -> Result<String, AllocError> {
    let mut text = String::new(alloc);
    text.push_str(field(line, 0))?;
    text.push_str(": ")?;
    let file = bytes_of(alloc, field(line, 1))?;
    if field(line, 2).is_empty() {
        put_case(alloc, &mut text, line, file.as_slice())?;
    } else {
        let chain = chain_of(alloc, file.as_slice(), number(field(line, 2)))?;
        put_case(alloc, &mut text, line, chain.as_slice())?;
    }
    Ok(text)
}
