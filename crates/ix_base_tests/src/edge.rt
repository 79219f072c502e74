//! The edge to real files and to standard output.

use crate::pattern::pattern;
use ix_shelf::{DiskShelf, FileFault, OutSink, Shelf, read_file, say, write_file};
use std::alloc::Global;
use std::fs;
use std::test::Fail;

/// Writes a real file and reads it again, each by our calls and by the system's.
fn check_real(rt: &HostRuntime, alloc: Global, length: usize) -> Result<bool, Fail> {
    let mut shelf = DiskShelf::new(rt);
    let bytes = pattern(alloc, length)?;
    write_file(&mut shelf, "real", &bytes)?;
    let seen = fs::read(rt, "real")?;
    let read = read_file(alloc, &mut shelf, "real")?;
    Ok(seen.as_slice() == bytes.as_slice() && read.as_slice() == bytes.as_slice())
}

/// What reading a real file answers where it can't be read.
fn fault_of(rt: &HostRuntime, alloc: Global, name: &str) -> Option<FileFault> {
    let mut shelf = DiskShelf::new(rt);
    match read_file(alloc, &mut shelf, name) {
        Ok(_) => None,
        Err(fault) => Some(fault),
    }
}

#[test]
fn real_files(rt: HostRuntime) -> Result<(), Fail> {
    let alloc = rt.alloc();
    assert_eq!(rt;
        fault_of(&rt, alloc, "real"),
        Some(FileFault::Read),
        "there is no file"
    );
    for length in [3_000_000, 65_537, 65_536, 1, 0] {
        assert!(rt; check_real(&rt, alloc, length)?, "{length} bytes");
    }
    assert_eq!(rt;
        fault_of(&rt, alloc, "."),
        Some(FileFault::Read),
        "a folder"
    );
    let mut shelf = DiskShelf::new(&rt);
    assert_eq!(rt;
        write_file(&mut shelf, ".", b"x"),
        Err(FileFault::Write),
        "a folder"
    );
    assert_eq!(rt;
        write_file(&mut shelf, "no/file", b"x"),
        Err(FileFault::Write)
    );
    assert_eq!(rt;
        shelf.append("made", b"abc"),
        Ok(3),
        "an append makes a file"
    );
    let made = fs::read(&rt, "made")?;
    assert_eq!(rt; made.as_slice(), b"abc".as_slice());
    Ok(())
}

#[test]
fn standard_output(rt: HostRuntime) {
    let mut out = OutSink::new(&rt);
    assert_eq!(rt; say(&mut out, b"a line\n"), Ok(()));
    assert_eq!(rt; say(&mut out, b""), Ok(()));
}
