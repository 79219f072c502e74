//! Tries logical netlists. The words of the command line are a command and a file:
//!
//! - `cases FILE`: each line of the file is a case, a netlist that is read and told in one line, or
//!   its fault;
//! - `tell FILE`: the file is a netlist itself, told in the same way;
//! - `count FILE`: of such a netlist only the lengths of its lists are told.
//!
//! The fields of a case are what it shows, the names that are there before, the file in hexadecimal
//! digits, and changes `BYTE:NUMBER` of words of 32 bits. A case without a file changes that of the
//! last case that has one.
//!
//! Each struct is told by its fields in their order, a name in quotes. At the end stand all names,
//! in the order of their numbers.
#![tactic(auto)]

mod answer;
mod changes;
mod summary;

use crate::answer::{told_of, try_case};
use anyhow::{Context, Result};
use ix_cases::is_case;
use ix_strings::Names;
use std::{env, fs};

/// Tries each case of a file.
fn try_cases(rt: &HostRuntime, cases: &str) -> Result<()> {
    let mut file = Vec::new(rt.alloc());
    for line in cases.lines() {
        if is_case(line) {
            let answer = try_case(rt.alloc(), line, &mut file)?;
            rt.println(answer.as_str())?;
        }
    }
    Ok(())
}

fn main(rt: HostRuntime) -> Result<()> {
    let mut words = env::args(&rt)?;
    let _program = words.next();
    let command = words.next().context("no command")?;
    let path = words.next().context("no file")?;
    if command.as_str() == "cases" {
        try_cases(&rt, &fs::read_to_string(&rt, &path)?)
    } else {
        let whole = command.as_str() == "tell";
        let mut names = Names::new(rt.alloc());
        let told = told_of(rt.alloc(), &fs::read(&rt, &path)?, &mut names, whole)?;
        rt.println(told.as_str())?;
        Ok(())
    }
}
