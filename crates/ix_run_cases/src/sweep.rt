//! Runs of which each call of the shelf fails in turn.

use crate::files::{put_difference, put_left, shelf_of};
use crate::runs::put_run;
use ix_cases::field;
use ix_shelf::MemShelf;
use std::alloc::AllocError;
use std::io;

/// A sweep makes at most so many runs.
const MOST_RUNS: u64 = 5000;

/// Cuts the file `d` to this length. Whether it was longer.
fn cut(rt: &HostRuntime, shelf: &mut MemShelf, length: u64) -> io::Result<bool> {
    let Some(whole) = shelf.file("d") else {
        return Ok(false);
    };
    if whole.len() as u64 <= length {
        return Ok(false);
    }
    let front = Vec::from_slice(rt.alloc(), &whole[..length as usize])?;
    match shelf.set("d", &front) {
        Ok(()) => Ok(true),
        Err(_) => Err(AllocError.into()),
    }
}

/// A shelf with the files of a case, whose call with this number fails, or whose device is cut to
/// this length. None where it is no longer than that.
fn failing(rt: &HostRuntime, line: &str, number: u64) -> io::Result<Option<MemShelf>> {
    let mut shelf = shelf_of(rt, field(line, 3))?;
    if field(line, 1) == "cut" {
        let cut_short = cut(rt, &mut shelf, number)?;
        return Ok(if cut_short { Some(shelf) } else { None });
    }
    match shelf.fail_at(number) {
        Ok(()) => Ok(Some(shelf)),
        Err(_) => Err(AllocError.into()),
    }
}

/// Writes what a run has left, by the files before it.
fn put_files(
    text: &mut String,
    rt: &HostRuntime,
    line: &str,
    before: &MemShelf,
    after: &MemShelf,
) -> io::Result<()> {
    put_difference(text, "d", after, before)?;
    put_difference(text, "n", after, before)?;
    let wanted = shelf_of(rt, field(line, 4))?;
    put_left(text, after, before, &wanted)?;
    Ok(())
}

/// What a run answers and leaves whose call with this number fails, or whose device is cut to this
/// length; empty where it can't be cut so.
fn ending(rt: &HostRuntime, line: &str, number: u64) -> io::Result<String> {
    let mut text = String::new(rt.alloc());
    let Some(before) = failing(rt, line, number)? else {
        return Ok(text);
    };
    let Some(mut shelf) = failing(rt, line, number)? else {
        return Ok(text);
    };
    put_run(&mut text, rt.alloc(), field(line, 2), &mut shelf)?;
    put_files(&mut text, rt, line, &before, &shelf)?;
    Ok(text)
}

/// Writes how many runs in a row end so.
fn put_ending(text: &mut String, count: u32, ending: &str) -> Result<(), AllocError> {
    if count > 0 {
        write!(text, "{count} x {ending}; ")?;
    }
    Ok(())
}

/// Writes how many runs end in which way, until one ends with status 0, or no more can be cut.
pub fn put_sweep(text: &mut String, rt: &HostRuntime, line: &str) -> io::Result<()> {
    let mut last = String::new(rt.alloc());
    let mut count = 0u32;
    for number in 0..MOST_RUNS {
        let next = ending(rt, line, number)?;
        if next.as_str() != last.as_str() {
            put_ending(text, count, &last)?;
            count = 0;
            last = next;
        }
        if last.is_empty() {
            break;
        }
        count = count.saturating_add(1);
        if last.starts_with("0 ") {
            break;
        }
    }
    put_ending(text, count, &last)?;
    Ok(())
}
