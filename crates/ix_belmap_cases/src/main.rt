//! Cases of fixed ports, groups of cells and counts of BELs, on the device of the file `pads`: each
//! line of the file `cases` is a design with a question, and a line for each tells the answer.
//!
//! The fields of a case, with bars between, are what it shows, the question, and the design item by
//! item. The questions:
//!
//! - `fixed`: the sites of fixed ports, or the rule that is broken and the port cell
//! - `groups`, and `fixed groups`, which fixes the ports first: a list of cells for each group
//! - `number of groups`: how many there are
//! - `short`: the first cell type with too few BELs
//! - `count TYPE`: the number of BELs that admit a cell type
//! - `none`: nothing, so that the time of the others can be told
//!
//! The items:
//!
//! - `port NAME DIRECTION`, `bus NAME DIRECTION FIRST LAST`: a port of the top, `in`, `out` or
//!   `inout`
//! - `netlist`: the netlist's properties
//! - `ports N`: the first N cells are port cells
//! - `cell NAME TYPE`, `net NAME`
//! - `pin CELL PIN NET`: the pin of the cell of this number is on the net of this number, or on
//!   `gnd` or `vcc`
//! - `members TYPE N NET`: N cells of a type, without names, each with a pin `I` on the net
//! - `outputs N NET`: N port cells of outputs, without names, each with its pin on the net
//!
//! A port and `netlist` are followed by properties, each a key, its kind (`text`, `int` or `bool`)
//! and its value. What doesn't fulfil the conditions of a call is told as such.
#![tactic(auto)]

mod answer;
mod checks;
mod reading;
mod telling;

use crate::answer::{answer_to, device_of};
use anyhow::Result;
use ix_cases::is_case;
use ix_strings::Names;
use std::fs;

fn main(rt: HostRuntime) -> Result<()> {
    let text = fs::read_to_string(&rt, "pads")?;
    let mut names = Names::new(rt.alloc());
    let device = device_of(rt.alloc(), &text, &mut names)?;
    let cases = fs::read_to_string(&rt, "cases")?;
    for line in cases.lines() {
        if is_case(line) {
            let answer = answer_to(rt.alloc(), &device, &mut names, line)?;
            println!(rt; "{answer}")?;
        }
    }
    Ok(())
}
