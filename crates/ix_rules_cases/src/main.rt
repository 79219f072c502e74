//! Judges physical netlists on devices by the rules L1 to L10. The words of the command line are a
//! command and files:
//!
//! - `cases FILE`: each line of the file is a case, and a line for each tells the answer at level
//!   placed, and that at level routed where it is another;
//! - `time DEVICE NETLIST LEVEL`: reads the two files, judges the netlist once at this level,
//!   `placed` or `routed`, and prints the answer; on standard error stands how long judging took.
//!   The level is looked at last: with another word the program ends after reading, with status 1.
//!
//! The fields of a case, with bars between, are what it shows, the name of the device's file, that
//! of a netlist, and the pieces that the case's netlist is made of: `=N+M` stands for M words of
//! the named netlist from word N on, other pieces are new words. Files of cases are hexadecimal
//! digits.
#![tactic(auto)]

mod answer;
mod reading;
mod timed;
mod words;

use crate::answer::answer_to;
use crate::timed::time_files;
use crate::words::{Words, words_of};
use anyhow::{Result, bail};
use ix_cases::{field, is_case};
use std::fs;

/// Tries each case of a file.
fn try_cases(rt: &HostRuntime, cases: &str) -> Result<()> {
    for line in cases.lines() {
        if is_case(line) {
            let device = fs::read_to_string(rt, field(line, 1))?;
            let netlist = fs::read_to_string(rt, field(line, 2))?;
            let answer = answer_to(rt.alloc(), &device, &netlist, line)?;
            rt.println(answer.as_str())?;
        }
    }
    Ok(())
}

// The cases of the file of this name.
fn try_file(rt: &HostRuntime, file: &str) -> Result<()> {
    let cases = fs::read_to_string(rt, file)?;
    try_cases(rt, &cases)
}

// What the words ask for.
fn run(rt: &HostRuntime, words: &Words) -> Result<()> {
    match words.command.as_str() {
        "cases" => try_file(rt, &words.file),
        "time" => time_files(rt, words),
        _ => bail!("an unknown command"),
    }
}

fn main(rt: HostRuntime) -> Result<()> {
    let words = words_of(&rt)?;
    run(&rt, &words)
}
