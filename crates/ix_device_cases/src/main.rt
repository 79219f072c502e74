//! Tries devices: what a file reads as or is refused for, the rule that a record breaks, what a
//! device tells, its node graph, and the ends of segments.
//!
//! Each line of `data/cases` has what it shows, the call, the file of a device, and the words of
//! the call. The other files of `data` are devices in hexadecimal digits. The calls:
//!
//! - `record` and `check`: the record of a device, and whether it keeps every rule; the words are
//!   changes of bytes, as `708=3`.
//! - `ask`: a look-up by names.
//! - `graph`: the nodes and edges of its graph.
//! - `constants`: the nodes of each constant, and for which constant cells stand; the words are
//!   names of cell types.
//! - `ends`: the ends of a segment, and of a PIP its number and place.
//!
//! The files were made by another program from records that were written by hand, and the answers
//! were worked out from the definitions by hand or by another program.
#![tactic(auto)]

mod answer;
mod asked;
mod bytes;
mod constants;
mod ends;
mod graph;
mod lookups;
mod names;
mod reading;
mod record_text;
mod shapes;
mod texts;

use crate::answer::answer_to;
use ix_cases::{field, is_case};
use std::{fs, io};

fn main(rt: HostRuntime) -> io::Result<()> {
    let cases = fs::read_to_string(&rt, "cases")?;
    for line in cases.lines() {
        if is_case(line) {
            let device = fs::read_to_string(&rt, field(line, 2))?;
            let answer = answer_to(rt.alloc(), line, &device)?;
            rt.println(answer.trim_end())?;
        }
    }
    Ok(())
}
