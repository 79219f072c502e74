//! Runs for command lines, one after another on one shelf.

use crate::files::{put_difference, shelf_of, words_of};
use crate::sweep::put_sweep;
use ix_cases::{field, number};
use ix_flow::run;
use ix_shelf::{MemShelf, MemSink};
use std::alloc::{AllocError, Global};
use std::io;

/// The names of the files that are compared after the runs of a case.
const NAMES: [&str; 5] = ["d", "n", "p", "r", "x"];

/// Lets a shelf and a sink fail as the words of a case say.
fn plan(shelf: &mut MemShelf, out: &mut MemSink, words: &str) -> Result<(), AllocError> {
    let (word, rest) = words.split_once(' ').unwrap_or((words, ""));
    let call = u64::from(number(rest));
    let planned = match word {
        "fail" => shelf.fail_at(call),
        "nothing" => shelf.nothing_at(call),
        "put" if rest == "nothing" => out.nothing_at(0),
        "put" => out.fail_at(0),
        "short" => {
            shelf.short(1);
            out.short(1);
            Ok(())
        }
        _ => Ok(()),
    };
    match planned {
        Ok(()) => Ok(()),
        Err(_) => Err(AllocError),
    }
}

/// Writes a printed line without its end.
fn put_line(text: &mut String, line: &[u8]) -> Result<(), AllocError> {
    match str::from_utf8(line) {
        Ok(printed) => match printed.strip_suffix('\n') {
            Some(line) => text.push_str(line),
            None => write!(text, "{printed:?}"),
        },
        Err(_) => text.push_str("no text"),
    }
}

/// Runs for a command line with this sink, and writes the exit status and what was printed.
fn put_run_with(
    text: &mut String,
    alloc: Global,
    line: &str,
    shelf: &mut MemShelf,
    out: &mut MemSink,
) -> Result<(), AllocError> {
    let words = words_of(alloc, line)?;
    let code = run(alloc, words.as_slice(), shelf, out).code();
    write!(text, "{code} ")?;
    put_line(text, out.bytes())
}

/// Runs for a command line, and writes the exit status and what was printed.
pub fn put_run(
    text: &mut String,
    alloc: Global,
    line: &str,
    shelf: &mut MemShelf,
) -> Result<(), AllocError> {
    let mut out = MemSink::new(alloc);
    put_run_with(text, alloc, line, shelf, &mut out)
}

/// The same, where the shelf and the sink fail as the words of a case say.
fn put_planned(
    text: &mut String,
    alloc: Global,
    line: &str,
    words: &str,
    shelf: &mut MemShelf,
) -> Result<(), AllocError> {
    let mut out = MemSink::new(alloc);
    plan(shelf, &mut out, words)?;
    put_run_with(text, alloc, line, shelf, &mut out)
}

/// Runs for each command line in turn.
fn put_runs(
    text: &mut String,
    alloc: Global,
    line: &str,
    shelf: &mut MemShelf,
) -> Result<(), AllocError> {
    let mut is_first = true;
    for words in field(line, 2).split(';') {
        if !is_first {
            text.push_str("; ")?;
        }
        put_planned(text, alloc, words, field(line, 1), shelf)?;
        is_first = false;
    }
    Ok(())
}

/// What the case of a line shows, and the answer.
pub fn answer_to(rt: &HostRuntime, line: &str) -> io::Result<String> {
    let mut text = String::from_str(rt.alloc(), field(line, 0))?;
    text.push_str(": ")?;
    if let "sweep" | "cut" = field(line, 1) {
        put_sweep(&mut text, rt, line)?;
        return Ok(text);
    }
    let mut shelf = shelf_of(rt, field(line, 3))?;
    put_runs(&mut text, rt.alloc(), line, &mut shelf)?;
    let after = if field(line, 4).is_empty() { 3 } else { 4 };
    let wanted = shelf_of(rt, field(line, after))?;
    for name in NAMES {
        put_difference(&mut text, name, &shelf, &wanted)?;
    }
    Ok(text)
}
