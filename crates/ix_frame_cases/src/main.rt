//! Tries frames: each case of `data/frames` is a file in hexadecimal digits and one call on it, and
//! the answer is the value that is found or the fault, with what is left of the budget.
//!
//! The fields of a case are what it shows, the call, the slot of the pointer that is followed, what
//! is taken from the budget before, and the file: the table of its segments first, then each word.
//! A frame of N words has a budget of 2 N + 64. The answers were worked out by hand from the
//! encoding.
#![tactic(auto)]

mod answer;
mod found;

use crate::answer::answer_to;
use ix_cases::is_case;
use std::{fs, io};

fn main(rt: HostRuntime) -> io::Result<()> {
    let cases = fs::read_to_string(&rt, "frames")?;
    for line in cases.lines() {
        if is_case(line) {
            let answer = answer_to(rt.alloc(), line)?;
            println!(rt; "{answer}")?;
        }
    }
    Ok(())
}
