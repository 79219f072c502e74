//! Tries command lines: each line of the file `cases` is what it shows and then the words, with
//! bars between. A field of blanks is an empty word, and a line without a bar has no words.
//!
//! The answer is the command with its operands, and each of its options with its number, `none`
//! where it isn't given; or that the words are refused.
#![tactic(auto)]

mod answer;

use crate::answer::answer_to;
use ix_cases::is_case;
use std::{fs, io};

fn main(rt: HostRuntime) -> io::Result<()> {
    let cases = fs::read_to_string(&rt, "cases")?;
    for line in cases.lines() {
        if is_case(line) {
            let answer = answer_to(rt.alloc(), line)?;
            println!(rt; "{answer}")?;
        }
    }
    Ok(())
}
