//! Tries flattening. The words of the command line are a command and files:
//!
//! - `cases FILE`: each line of the file is a case, and a line for each tells the answer;
//! - `count DEVICE DESIGN`: the two files are a device and a design; of the flat design only the
//!   lengths of its lists are told, and on standard error how long flattening took.
//!
//! The fields of a case, with bars between, are what it shows, the name of the device's file, and
//! the design in hexadecimal digits. The answer is the flat design, or the rule that is broken and
//! its word. Told are the cells with their types, the number of port cells, the signal nets with
//! their drivers, the connected pins with their nets, at one cell in the order of the bytes of
//! their names, and the tables of LUT cells with the number of their inputs.
#![tactic(auto)]

mod answer;
mod reading;
mod telling;
mod timed;

use crate::answer::answer_to;
use crate::timed::time_flattening;
use anyhow::{Context, Result};
use ix_cases::{field, is_case};
use std::{env, fs};

/// Tries each case of a file.
fn try_cases(rt: &HostRuntime, cases: &str) -> Result<()> {
    for line in cases.lines() {
        if is_case(line) {
            let device = fs::read_to_string(rt, field(line, 1))?;
            let answer = answer_to(rt.alloc(), &device, line)?;
            rt.println(answer.as_str())?;
        }
    }
    Ok(())
}

fn main(rt: HostRuntime) -> Result<()> {
    let mut words = env::args(&rt)?;
    let _program = words.next();
    let command = words.next().context("no command")?;
    let path = words.next().context("no file")?;
    if command.as_str() == "cases" {
        return try_cases(&rt, &fs::read_to_string(&rt, &path)?);
    }
    let design = words.next().context("no design")?;
    time_flattening(&rt, &fs::read(&rt, &path)?, &fs::read(&rt, &design)?)
}
