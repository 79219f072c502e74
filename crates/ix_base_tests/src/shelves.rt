//! Whole files of a shelf, and bytes for a sink.

ghost use Rattle.std.specs.Prelude.{◌<◌};

use crate::pattern::pattern;
use ix_shelf::{Failed, FileFault, MemShelf, MemSink, Shelf, read_file, say, write_file};
use std::alloc::Global;
use std::process::Abort;
use std::test::Fail;

/// Lengths of files, and how many calls it takes to write one: the create, and an append for each
/// 65,536 bytes.
const WRITES: [(usize, u64); 4] = [(0, 1), (65_536, 2), (65_537, 3), (131_073, 4)];

/// Whether the shelf has a file of this name and these bytes.
fn holds(shelf: &MemShelf, name: &str, bytes: &[u8]) -> bool {
    match shelf.file(name) {
        Some(file) => file == bytes,
        None => false,
    }
}

/// Whether the file was read, and has these bytes.
fn is_read(read: &Result<Vec<u8>, FileFault>, bytes: &[u8]) -> bool {
    match read {
        Ok(file) => file.as_slice() == bytes,
        Err(_) => false,
    }
}

/// Whether there is no file but this fault.
fn is_fault(read: &Result<Vec<u8>, FileFault>, fault: FileFault) -> bool {
    match read {
        Ok(_) => false,
        Err(found) => *found == fault,
    }
}

/// A shelf with two files.
fn two_files(alloc: Global) -> Result<MemShelf, Fail> {
    let mut shelf = MemShelf::new(alloc);
    shelf.set("f", b"before")?;
    shelf.set("g", b"other")?;
    Ok(shelf)
}

/// Writes a file beside another one, and reads it again.
fn check_round(
    rt: &impl Abort,
    alloc: Global,
    shelf: &mut MemShelf,
    bytes: &[u8],
) -> Result<(), Fail> {
    let length = bytes.len();
    let written = write_file(shelf, "f", bytes);
    assert!(rt; written.is_ok(), "{length} bytes are written");
    let read = read_file(alloc, shelf, "f");
    assert!(rt; is_read(&read, bytes), "{length} bytes are read");
    assert!(rt; holds(shelf, "f", bytes), "{length} bytes stand there");
    assert!(rt; holds(shelf, "g", b"other"), "no other file changes");
    Ok(())
}

/// Writes a file of so many bytes and reads it again, and then a shorter one over it.
fn check_whole(rt: &impl Abort, alloc: Global, length: usize) -> Result<(), Fail> {
    let bytes = pattern(alloc, length)?;
    let mut shelf = two_files(alloc)?;
    check_round(rt, alloc, &mut shelf, bytes.as_slice())?;
    check_round(rt, alloc, &mut shelf, b"x")?;
    assert_eq!(rt; shelf.starved(), 0);
    Ok(())
}

/// What a write leaves whose call with this number failed, or would have: as many pieces as were
/// added before it.
fn pieces_before(bytes: &[u8], call: u64) -> &[u8]
    requires { 0 < call }
{
    let kept = (call - 1).saturating_mul(65_536);
    if kept < bytes.len() as u64 {
        &bytes[..kept as usize]
    } else {
        bytes
    }
}

/// Whether the shelf is as a write leaves it whose call with this number failed.
fn is_left(shelf: &MemShelf, bytes: &[u8], call: u64) -> bool {
    if call == 0 {
        holds(shelf, "f", b"before")
    } else {
        holds(shelf, "f", pieces_before(bytes, call))
    }
}

/// Writes a file on a shelf of which the call with this number fails, and then once more.
fn check_write(
    rt: &impl Abort,
    alloc: Global,
    bytes: &[u8],
    calls: u64,
    call: u64,
) -> Result<(), Fail> {
    let length = bytes.len();
    let mut shelf = two_files(alloc)?;
    shelf.fail_at(call)?;
    let written = write_file(&mut shelf, "f", bytes).is_ok();
    assert!(rt; written == (call >= calls), "{length} bytes, call {call}");
    let left = is_left(&shelf, bytes, call);
    assert!(rt; left, "{length} bytes, call {call}, what is left");
    if call < calls {
        check_round(rt, alloc, &mut shelf, bytes)?;
    }
    Ok(())
}

/// Writes a file once for each of its first calls.
fn check_writes(rt: &impl Abort, alloc: Global, length: usize, calls: u64) -> Result<(), Fail> {
    let bytes = pattern(alloc, length)?;
    for call in 0..6u64 {
        check_write(rt, alloc, bytes.as_slice(), calls, call)?;
    }
    Ok(())
}

fn check_faults(rt: &impl Abort, alloc: Global, writes: &[(usize, u64)]) -> Result<(), Fail> {
    for (length, calls) in writes {
        check_whole(rt, alloc, *length)?;
        check_writes(rt, alloc, *length, *calls)?;
    }
    Ok(())
}

#[test]
fn files_and_faults(rt: HostRuntime) -> Result<(), Fail> {
    check_faults(&rt, rt.alloc(), &WRITES)
}

#[test]
fn longer_files(rt: HostRuntime) -> Result<(), Fail> {
    check_whole(&rt, rt.alloc(), 1_048_577)?;
    check_whole(&rt, rt.alloc(), 3_000_000)
}

#[test]
fn absent_files(rt: HostRuntime) -> Result<(), Fail> {
    let alloc = rt.alloc();
    let mut shelf = MemShelf::new(alloc);
    let read = read_file(alloc, &mut shelf, "f");
    assert!(rt; is_fault(&read, FileFault::Read));
    assert!(rt; shelf.file("f").is_none(), "a read makes no file");
    assert_eq!(rt; shelf.append("f", b"one"), Ok(3));
    assert!(rt; holds(&shelf, "f", b"one"), "an append makes a file");
    assert_eq!(rt; shelf.append("f", b"two"), Ok(3));
    assert!(rt; holds(&shelf, "f", b"onetwo"));
    let mut room = [0u8; 4];
    assert_eq!(rt; shelf.read_at("f", 1, &mut room), Ok(4));
    assert_eq!(rt; room.as_slice(), b"netw".as_slice());
    assert_eq!(rt; shelf.read_at("f", 4, &mut room), Ok(2));
    assert_eq!(rt; shelf.read_at("f", 6, &mut room), Ok(0));
    assert_eq!(rt; shelf.read_at("f", u64::MAX, &mut room), Ok(0));
    assert_eq!(rt; shelf.read_at("h", 0, &mut room), Err(Failed));
    assert_eq!(rt; shelf.create("f"), Ok(()));
    assert!(rt; holds(&shelf, "f", b""), "a create empties a file");
    assert!(rt; shelf.file("h").is_none());
    Ok(())
}

#[test]
fn sinks(rt: HostRuntime) -> Result<(), Fail> {
    let alloc = rt.alloc();
    let mut sink = MemSink::new(alloc);
    assert_eq!(rt; say(&mut sink, b""), Ok(()));
    assert_eq!(rt; sink.bytes(), b"".as_slice());
    assert_eq!(rt; say(&mut sink, b"one\n"), Ok(()));
    assert_eq!(rt; sink.bytes(), b"one\n".as_slice());
    sink.fail_at(1)?;
    assert_eq!(rt; say(&mut sink, b"two\n"), Err(Failed));
    assert_eq!(rt; sink.bytes(), b"one\n".as_slice());
    assert_eq!(rt; say(&mut sink, b"three\n"), Ok(()));
    assert_eq!(rt; sink.bytes(), b"one\nthree\n".as_slice());
    assert_eq!(rt; sink.starved(), 0);
    Ok(())
}
