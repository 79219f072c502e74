//! Runs of the job.

use crate::joins::Joins;
use ix_cases::{bytes_of, field, number};
use ix_job::run_job;
use ix_shelf::{MemShelf, MemSink};
use std::alloc::{AllocError, Global};
use std::io;

/// A sweep makes at most so many runs.
const MOST_RUNS: u32 = 1000;

/// A shelf with the two files of a case, and with an old one that is written over.
fn shelf_of(alloc: Global, line: &str) -> Result<MemShelf, AllocError> {
    let mut shelf = MemShelf::new(alloc);
    let a = bytes_of(alloc, field(line, 2))?;
    let b = bytes_of(alloc, field(line, 3))?;
    let set = shelf.set("a", &a).is_ok()
        && shelf.set("b", &b).is_ok()
        && shelf.set("y", b"old").is_ok();
    if set { Ok(shelf) } else { Err(AllocError) }
}

/// Lets a shelf and a sink fail as the words of a case say.
fn plan(shelf: &mut MemShelf, out: &mut MemSink, words: &str) -> Result<(), AllocError> {
    let (word, rest) = words.split_once(' ').unwrap_or((words, ""));
    let call = u64::from(number(rest));
    let planned = match word {
        "fail" => shelf.fail_at(call),
        "nothing" => shelf.nothing_at(call),
        "put" if rest == "nothing" => out.nothing_at(0),
        "put" => out.fail_at(0),
        "short" => {
            shelf.short(1);
            out.short(1);
            Ok(())
        }
        _ => Ok(()),
    };
    match planned {
        Ok(()) => Ok(()),
        Err(_) => Err(AllocError),
    }
}

/// Writes what a file holds.
fn put_file(text: &mut String, shelf: &MemShelf, name: &str) -> Result<(), AllocError> {
    write!(text, ", {name} ")?;
    match shelf.file(name) {
        None => text.push_str("isn't there"),
        Some(bytes) => match str::from_utf8(bytes) {
            Ok(held) => write!(text, "{held:?}"),
            Err(_) => text.push_str("no text"),
        },
    }
}

/// Writes what a run prints, whether its status stands, and what it leaves.
fn put_run(
    text: &mut String,
    alloc: Global,
    shelf: &mut MemShelf,
    out: &mut MemSink,
) -> Result<(), AllocError> {
    let stands = run_job(alloc, &Joins, &["a", "b"], &["x", "y"], shelf, out).is_ok();
    match str::from_utf8(out.bytes()) {
        Ok(line) => write!(text, "{line:?}")?,
        Err(_) => text.push_str("no text")?,
    }
    if !stands {
        text.push_str(" not put")?;
    }
    put_file(text, shelf, "x")?;
    put_file(text, shelf, "y")
}

/// What a run comes to whose call with this number fails.
fn ending(alloc: Global, line: &str, call: u32) -> Result<String, AllocError> {
    let mut text = String::new(alloc);
    let mut shelf = shelf_of(alloc, line)?;
    let mut out = MemSink::new(alloc);
    if field(line, 1) == "sweep short" {
        shelf.short(1);
    }
    if shelf.fail_at(u64::from(call)).is_err() {
        return Err(AllocError);
    }
    put_run(&mut text, alloc, &mut shelf, &mut out)?;
    Ok(text)
}

/// Writes how many runs in a row end so.
fn put_ending(text: &mut String, count: u32, ending: &str) -> Result<(), AllocError> {
    if count > 0 {
        write!(text, "{count} x {ending}; ")?;
    }
    Ok(())
}

/// Writes how many runs end in which way, until one is done.
fn put_sweep(text: &mut String, alloc: Global, line: &str) -> Result<(), AllocError> {
    let mut last = String::new(alloc);
    let mut count = 0u32;
    for call in 0..MOST_RUNS {
        let next = ending(alloc, line, call)?;
        if next.as_str() != last.as_str() {
            put_ending(text, count, &last)?;
            count = 0;
            last = next;
        }
        count = count.saturating_add(1);
        if last.starts_with("\"demo") {
            break;
        }
    }
    put_ending(text, count, &last)
}

/// What the case of a line shows, and the answer.
pub fn answer_to(rt: &HostRuntime, line: &str) -> io::Result<String> {
    let alloc = rt.alloc();
    let mut text = String::from_str(alloc, field(line, 0))?;
    text.push_str(": ")?;
    if field(line, 1).starts_with("sweep") {
        put_sweep(&mut text, alloc, line)?;
        return Ok(text);
    }
    let mut shelf = shelf_of(alloc, line)?;
    let mut out = MemSink::new(alloc);
    plan(&mut shelf, &mut out, field(line, 1))?;
    put_run(&mut text, alloc, &mut shelf, &mut out)?;
    Ok(text)
}
