//! Cases of LUT elements: each line of the file `elements` is an element with its LUT cells, a cell
//! on its BEL with its element's table, a table whose inputs change places, or an INIT property,
//! and a line for each tells the plan, the function or the table.
//!
//! The fields of a case, with bars between, are what it shows, the call, and what the call is
//! given:
//!
//! - `element | lines | BELs | cells`: how many lines there are, the BELs, and the LUT cells
//! - `function | lines | BELs | table | BEL | places | ties`: the element's table, the cell's BEL
//!   by its place, the place of each of the cell's inputs among the BEL's, and for each line `0`,
//!   `1` or `-`, the constant that holds it
//! - `permute | table | inputs | places`: a table, the number of its inputs, and the new place of
//!   each
//! - `text | inputs | INIT` and `number | inputs | INIT`: an INIT property of a LUT with so many
//!   inputs, a text or a number
//!
//! A BEL is `low:line,line,..`, a cell `BEL:table:net,net,..`, where a net is `gnd`, `vcc` or a
//! number. Tables are hexadecimal. `element*n` makes the plan so many times, so that it can be
//! timed. What doesn't fulfil the conditions of a call is told as such.
#![tactic(auto)]

mod answer;
mod checks;
mod reading;
mod telling;

use crate::answer::answer_to;
use ix_cases::is_case;
use std::{fs, io};

fn main(rt: HostRuntime) -> io::Result<()> {
    let cases = fs::read_to_string(&rt, "elements")?;
    for line in cases.lines() {
        if is_case(line) {
            let answer = answer_to(rt.alloc(), line)?;
            println!(rt; "{answer}")?;
        }
    }
    Ok(())
}
