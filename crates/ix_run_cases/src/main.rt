//! Tries whole runs over a shelf and a sink in memory.
//!
//! Each line of `data/cases` has what it shows, what fails, command lines, the files before and the
//! files after. Words have commas between them, command lines semicolons. A file is written
//! `r=NAME`, its bytes being the hexadecimal digits of the file NAME of `data`, or `r=#DIGITS`, or
//! `r=@LEVELS` for a design of so many levels, or `r=NAME:PIECES` for pieces of the file NAME with
//! commas between them; where no files are given after, they are those before. What fails is one of
//!
//! - nothing: `run`;
//! - the call of the shelf with a number, from 0: `fail 3`; or it takes nothing: `nothing 3`;
//! - the one call of the sink: `put`; or it takes nothing: `put nothing`;
//! - nothing, but each call takes one byte: `short`;
//! - each call of the shelf in turn, on fresh files, until none fails: `sweep`; or nothing, and the
//!   file `d` is cut to each shorter length: `cut`.
//!
//! The answer is the exit status and the printed line of each run, and at which byte a file differs
//! from what is wanted. Of a sweep it is how many runs end in which way, and what they leave of the
//! file `r`.
#![tactic(auto)]

mod deep;
mod files;
mod runs;
mod sweep;

use crate::runs::answer_to;
use ix_cases::is_case;
use std::{fs, io};

fn main(rt: HostRuntime) -> io::Result<()> {
    let cases = fs::read_to_string(&rt, "cases")?;
    for line in cases.lines() {
        if is_case(line) {
            let answer = answer_to(&rt, line)?;
            rt.println(answer.trim_end())?;
        }
    }
    Ok(())
}
