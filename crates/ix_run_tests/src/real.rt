//! Runs over real files.

use ix_cases::bytes_of;
use ix_flow::run;
use ix_shelf::{DiskShelf, MemSink};
use std::alloc::{AllocError, Global};
use std::fs;
use std::process::Abort;
use std::test::Fail;

/// A device of one word, the root pointer, which is zero.
const DEVICE: &str = "0000000001000000 0000000000000000";

/// A design whose string table is one empty text, with one declaration and nothing else.
const DESIGN: &str =
    "0000000008000000 0000000000000500 0000000000000000 0000000000000000 0000000000000000 050000000e000000 0500000007000000 0000000000000000 0400000000000000";

/// A netlist whose six pointers are zero.
const NETLIST: &str =
    "0000000007000000 0000000000000600 0000000000000000 0000000000000000 0000000000000000 0000000000000000 0000000000000000 0000000000000000";

/// The line of a job on the device and the design above.
const DONE: &str = "done: 0 cells, 0 clusters, 0 nets, 0 pips, trial 1, rounds 1\n";

/// The words of a command line, which have blanks between them.
fn words_of(alloc: Global, line: &str) -> Result<Vec<String>, AllocError> {
    let mut words = Vec::new(alloc);
    for word in line.split(' ') {
        words.push(String::from_str(alloc, word)?)?;
    }
    Ok(words)
}

/// Whether a run for a command line on real files has this exit status and prints this line.
fn is_real_run(rt: &HostRuntime, words: &str, code: u8, line: &str) -> Result<bool, Fail> {
    let alloc = rt.alloc();
    let words = words_of(alloc, words)?;
    let mut shelf = DiskShelf::new(rt);
    let mut out = MemSink::new(alloc);
    let status = run(alloc, words.as_slice(), &mut shelf, &mut out);
    Ok(status.code() == code && out.bytes() == line.as_bytes())
}

/// Whether a real file has the bytes of these digits.
fn is_real(rt: &HostRuntime, alloc: Global, name: &str, hex: &str) -> Result<bool, Fail> {
    let file = fs::read(rt, name)?;
    Ok(file.as_slice() == bytes_of(alloc, hex)?.as_slice())
}

/// Makes a real file of the bytes of these digits.
fn make_real(rt: &HostRuntime, alloc: Global, name: &str, hex: &str) -> Result<(), Fail> {
    Ok(fs::write(rt, name, bytes_of(alloc, hex)?.as_slice())?)
}

#[test]
fn real_faults(rt: HostRuntime) -> Result<(), Fail> {
    let alloc = rt.alloc();
    let missing = is_real_run(&rt, "flow d n r", 7, "read fault: d\n")?;
    assert!(rt; missing, "there is no device");
    make_real(&rt, alloc, "d", DEVICE)?;
    make_real(&rt, alloc, "n", DESIGN)?;
    let folder = is_real_run(&rt, "flow . n r", 7, "read fault: .\n")?;
    assert!(rt; folder, "the device is a folder");
    let lost = is_real_run(&rt, "flow d n no/r", 7, "write fault: no/r\n")?;
    assert!(rt; lost, "there is no folder for the netlist");
    Ok(())
}

#[test]
fn real_jobs(rt: HostRuntime) -> Result<(), Fail> {
    let alloc = rt.alloc();
    make_real(&rt, alloc, "d", DEVICE)?;
    make_real(&rt, alloc, "n", DESIGN)?;
    let done = is_real_run(&rt, "flow d n r", 0, DONE)?;
    let written = is_real(&rt, alloc, "r", NETLIST)?;
    assert!(rt; done && written);
    let over = is_real_run(&rt, "flow d n n", 0, DONE)?;
    let replaced = is_real(&rt, alloc, "n", NETLIST)?;
    assert!(rt; over && replaced, "over an input");
    Ok(())
}
