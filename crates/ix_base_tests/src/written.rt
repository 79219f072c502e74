//! Messages that are built, and lines that are printed.

use ix_capw::{At, Builder};
use ix_cases::bytes_of;
use ix_rec::{File, Place, Rule, Word};
use ix_report::{Report, line};
use std::alloc::Global;
use std::process::Abort;
use std::test::Fail;

/// Roots by the words of their two sections, and the messages that are nothing else.
const ROOTS: [(u16, u16, &str); 4] = [
    (
        0,
        6,
        "0000000007000000 0000000000000600 0000000000000000 0000000000000000 0000000000000000 0000000000000000 0000000000000000 0000000000000000",
    ),
    (1, 0, "0000000002000000 0000000001000000 0000000000000000"),
    (0, 1, "0000000002000000 0000000000000100 0000000000000000"),
    (
        2,
        3,
        "0000000006000000 0000000002000300 0000000000000000 0000000000000000 0000000000000000 0000000000000000 0000000000000000",
    ),
];

/// Builds a message of a root alone.
fn check_root(
    rt: &impl Abort,
    alloc: Global,
    words: u16,
    pointers: u16,
    hex: &str,
) -> Result<(), Fail> {
    let mut builder = Builder::new(alloc);
    let At {
        start,
        words: data,
        pointers: refs,
    } = builder.root(words, pointers)?;
    assert_eq!(rt; (start, data, refs), (1, words, pointers));
    let file = builder.finish()?;
    let wanted = bytes_of(alloc, hex)?;
    assert_eq!(rt; file.as_slice(), wanted.as_slice());
    Ok(())
}

/// Whether the line of a report is this text and a line feed.
fn check_line(rt: &impl Abort, alloc: Global, report: &Report, text: &str) -> Result<(), Fail> {
    let mut wanted = String::from_str(alloc, text)?;
    wanted.push_str("\n")?;
    let printed = line(alloc, report)?;
    assert_eq!(rt; printed.as_slice(), wanted.as_bytes(), "{text}");
    Ok(())
}

/// The line of a file that breaks a rule at a place.
fn check_place(rt: &impl Abort, alloc: Global, place: Place, text: &str) -> Result<(), Fail> {
    let report = Report::Bad {
        file: File::Phys,
        rule: Rule::L9,
        place,
    };
    check_line(rt, alloc, &report, text)
}

fn word(alloc: Global, text: &str) -> Result<Word, Fail> {
    Ok(Word::new(alloc, text)?)
}

/// The lines of places without names.
fn check_numbered_places(rt: &impl Abort, alloc: Global) -> Result<(), Fail> {
    check_place(rt, alloc, Place::File, "phys: L9 at file")?;
    let first = Place::At {
        segment: 0,
        word: 0,
    };
    check_place(rt, alloc, first, "phys: L9 at word 0:0")?;
    let last = Place::At {
        segment: 511,
        word: 134_217_727,
    };
    check_place(rt, alloc, last, "phys: L9 at word 511:134217727")?;
    let item = Place::Item {
        kind: word(alloc, "BELPin")?,
        field: word(alloc, "dir")?,
        index: 10,
    };
    check_place(rt, alloc, item, "phys: L9 at BELPin.dir 10")
}

/// The lines of places with names.
fn check_named_places(rt: &impl Abort, alloc: Global) -> Result<(), Fail> {
    let named = Place::Named(word(alloc, "a/b c")?);
    check_place(rt, alloc, named, "phys: L9 at a/b c")?;
    let empty = Place::Named(word(alloc, "")?);
    check_place(rt, alloc, empty, "phys: L9 at ")?;
    let cell = Place::Cell(word(alloc, "c0")?);
    check_place(rt, alloc, cell, "phys: L9 at cell c0")?;
    let pin = Place::Pin(word(alloc, "c0")?, word(alloc, "A1")?);
    check_place(rt, alloc, pin, "phys: L9 at pin c0/A1")?;
    let segment = Place::Segment {
        net: word(alloc, "n0")?,
        index: 3,
    };
    check_place(rt, alloc, segment, "phys: L9 at net n0 #3")?;
    let element = Place::Element(word(alloc, "S1")?, 2);
    check_place(rt, alloc, element, "phys: L9 at element S1 2")
}

/// The lines of sites and keys.
fn check_other_places(rt: &impl Abort, alloc: Global) -> Result<(), Fail> {
    let site = Place::Site(word(alloc, "S1")?);
    check_place(rt, alloc, site, "phys: L9 at site S1")?;
    let key = Place::Key(word(alloc, "TABLE/S1/0")?);
    check_place(rt, alloc, key, "phys: L9 at key TABLE/S1/0")
}

/// The lines of faults of the shelf.
fn check_read_fault(rt: &impl Abort, alloc: Global, file: &str, text: &str) -> Result<(), Fail> {
    let file = word(alloc, file)?;
    check_line(rt, alloc, &Report::ReadFault { file }, text)
}

fn check_write_fault(rt: &impl Abort, alloc: Global, file: &str, text: &str) -> Result<(), Fail> {
    let file = word(alloc, file)?;
    check_line(rt, alloc, &Report::WriteFault { file }, text)
}

fn check_roots(rt: &impl Abort, alloc: Global, roots: &[(u16, u16, &str)]) -> Result<(), Fail> {
    for (words, pointers, hex) in roots {
        check_root(rt, alloc, *words, *pointers, hex)?;
    }
    Ok(())
}

/// The lines of two jobs that are done.
fn check_done(rt: &impl Abort, alloc: Global) -> Result<(), Fail> {
    let none = Report::Implemented {
        cells: 0,
        clusters: 0,
        nets: 0,
        pips: 0,
        trial: 1,
        rounds: 1,
    };
    let none_line = "done: 0 cells, 0 clusters, 0 nets, 0 pips, trial 1, rounds 1";
    check_line(rt, alloc, &none, none_line)?;
    let some = Report::Implemented {
        cells: 4_294_967_295,
        clusters: 10,
        nets: 101,
        pips: 18_446_744_073_709_551_615,
        trial: 4,
        rounds: 50,
    };
    let some_line =
        "done: 4294967295 cells, 10 clusters, 101 nets, 18446744073709551615 pips, trial 4, rounds 50";
    check_line(rt, alloc, &some, some_line)
}

#[test]
fn messages(rt: HostRuntime) -> Result<(), Fail> {
    check_roots(&rt, rt.alloc(), &ROOTS)
}

#[test]
fn lines(rt: HostRuntime) -> Result<(), Fail> {
    let alloc = rt.alloc();
    check_numbered_places(&rt, alloc)?;
    check_named_places(&rt, alloc)?;
    check_other_places(&rt, alloc)?;
    check_read_fault(&rt, alloc, "d", "read fault: d")?;
    check_write_fault(&rt, alloc, "a b", "write fault: a b")?;
    check_line(&rt, alloc, &Report::Usage, "bad words")?;
    check_line(&rt, alloc, &Report::OutOfMemory, "out of memory")?;
    check_done(&rt, alloc)
}
