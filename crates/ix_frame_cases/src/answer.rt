//! The answer to a case.

use crate::found::{put_found, put_slots};
use ix_cases::{bytes_of, field, number};
use ix_frame::{Budget, Frame, Obj};
use ix_num::FrameFault;
use std::alloc::{AllocError, Global};

/// A frame whose root is a struct of one pointer, which is the root's own: following it costs 1.
const PROBE: &str = "00000000 01000000 fcffffff 00000100";

/// The most bytes that a frame may have.
const MOST_BYTES: usize = 1 << 30;

/// Takes this much from a budget, a word at a time.
fn spend(probe: &Obj<'_>, budget: &mut Budget, words: u32) {
    for _ in 0..words {
        let _ = probe.obj(0, budget);
    }
}

/// What is left of a budget, which is used up.
fn what_is_left(probe: &Obj<'_>, budget: &mut Budget) -> u32 {
    for n in 0..100_000u32 {
        if probe.obj(0, budget).is_err() {
            return n;
        }
    }
    100_000
}

/// Writes what is left of a budget.
fn put_left(text: &mut String, probe: &Obj<'_>, budget: &mut Budget) -> Result<(), AllocError> {
    let left = what_is_left(probe, budget);
    write!(text, "left {left}")
}

/// A file's bytes as a frame, where there are few enough.
fn open(bytes: &[u8]) -> Option<Result<Frame<'_>, FrameFault>> {
    if bytes.len() <= MOST_BYTES {
        Some(Frame::open(bytes))
    } else {
        None
    }
}

/// Follows a pointer of the root, and writes what is found and what is left.
fn put_followed(
    text: &mut String,
    line: &str,
    frame: &Frame<'_>,
    probe: &Obj<'_>,
) -> Result<(), AllocError> {
    let mut budget = Budget::new(frame);
    spend(probe, &mut budget, number(field(line, 3)));
    match frame.root(&mut budget) {
        Ok(root) => put_found(
            text,
            field(line, 1),
            &root,
            number(field(line, 2)),
            &mut budget,
        )?,
        Err(fault) => write!(text, "{fault}")?,
    }
    text.push_str(", ")?;
    put_left(text, probe, &mut budget)
}

/// Tries the call of a case on a frame.
fn put_call(
    text: &mut String,
    line: &str,
    frame: &Frame<'_>,
    probe: &Obj<'_>,
) -> Result<(), AllocError> {
    match field(line, 1) {
        "open" => put_left(text, probe, &mut Budget::new(frame)),
        "slots" => put_slots(text, frame),
        _ => put_followed(text, line, frame, probe),
    }
}

/// Tries a case on a file, with the root of the frame that budgets are measured by.
fn put_answer(
    text: &mut String,
    line: &str,
    bytes: &[u8],
    probe: &Obj<'_>,
) -> Result<(), AllocError> {
    match open(bytes) {
        Some(Ok(frame)) => put_call(text, line, &frame, probe),
        Some(Err(fault)) => write!(text, "{fault}"),
        None => text.push_str("too long"),
    }
}

/// What the case of a line shows, and the answer.
pub fn answer_to(alloc: Global, line: &str) -> Result<String, AllocError> {
    let mut text = String::from_str(alloc, field(line, 0))?;
    text.push_str(": ")?;
    let bytes = bytes_of(alloc, field(line, 4))?;
    let probe = bytes_of(alloc, PROBE)?;
    if let Some(Ok(frame)) = open(&probe) {
        if let Ok(root) = frame.root(&mut Budget::new(&frame)) {
            put_answer(&mut text, line, &bytes, &root)?;
        }
    }
    Ok(text)
}
