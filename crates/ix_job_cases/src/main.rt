//! Tries a job over a shelf and a sink in memory: it joins two files in both orders.
//!
//! Each line of `data/cases` has what it shows, what fails, and the two files as hexadecimal
//! digits. What fails is one of
//!
//! - nothing: `run`;
//! - the call of the shelf with a number, from 0: `fail 3`; or it takes nothing: `nothing 3`;
//! - the one call of the sink: `put`; or it takes nothing: `put nothing`;
//! - nothing, but each call takes one byte: `short`;
//! - each call of the shelf in turn, on fresh files, until none fails: `sweep`; each call taking
//!   one byte: `sweep short`.
//!
//! The answer is the printed line of each run, whether its status stands, and what it leaves of the
//! two files that it writes.
#![tactic(auto)]

mod joins;
mod runs;

use crate::runs::answer_to;
use ix_cases::is_case;
use std::{fs, io};

fn main(rt: HostRuntime) -> io::Result<()> {
    let cases = fs::read_to_string(&rt, "cases")?;
    for line in cases.lines() {
        if is_case(line) {
            let answer = answer_to(&rt, line)?;
            rt.println(answer.trim_end())?;
        }
    }
    Ok(())
}
