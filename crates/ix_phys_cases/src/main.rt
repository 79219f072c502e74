//! Tries physical netlists: each case of `data/netlists` is a file in hexadecimal digits. It is
//! read, told in one line, written and read again; or its fault is told.
//!
//! The fields of a case are what it shows, the file, and for a chain how many branches it has: the
//! file's last word is then the branches of its last branch, and that branch is repeated so often,
//! each time the only one below the one before.
//!
//! Each struct is told by its fields in their order, each branch by its depth first. At the end
//! stands how the written file compares with the case's own.
#![tactic(auto)]

mod answer;
mod chain;
mod summary;

use crate::answer::answer_to;
use ix_cases::is_case;
use std::{fs, io};

fn main(rt: HostRuntime) -> io::Result<()> {
    let cases = fs::read_to_string(&rt, "netlists")?;
    for line in cases.lines() {
        if is_case(line) {
            let answer = answer_to(rt.alloc(), line)?;
            println!(rt; "{answer}")?;
        }
    }
    Ok(())
}
