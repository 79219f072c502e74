//! Cases of the occupancy: each line of the file `steps` is a list of steps, and a line for each
//! tells what the occupancy is after them.
//!
//! A line is a name, the number of nodes, and the steps, with bars between: `+net:node` claims,
//! `-net:node` releases, `end` ends a round, and `end*n` ends so many. Each list is replayed, and
//! taken step by step; only where these differ does its line tell both.
#![tactic(auto)]

mod nodes;
mod play;
mod reading;
mod telling;

use crate::nodes::are_of_nodes;
use crate::play::played;
use crate::reading::{Case, case_of};
use crate::telling::told;
use anyhow::{Context, Result};
use ix_occupy::{Step, is_lawful, replay};
use std::alloc::Global;
use std::fs;

// What the occupancy is after a list of steps, or what the list breaks.
fn answer(alloc: Global, nodes: u32, steps: &[Step]) -> Result<String> {
    if !are_of_nodes(steps, nodes) {
        return Ok(String::from_str(alloc, "no such node")?);
    }
    if steps.len() > u32::MAX as usize || !is_lawful(steps) {
        return Ok(String::from_str(alloc, "not lawful")?);
    }
    let replayed = told(alloc, &replay(alloc, nodes, steps)?, nodes)?;
    let Some(occupancy) = played(alloc, nodes, steps)? else {
        return Ok(format!(in alloc; "{replayed} | step by step refused")?);
    };
    let by_steps = told(alloc, &occupancy, nodes)?;
    if by_steps.as_str() == replayed.as_str() {
        Ok(replayed)
    } else {
        Ok(format!(in alloc; "{replayed} | step by step: {by_steps}")?)
    }
}

fn main(rt: HostRuntime) -> Result<()> {
    let text = fs::read_to_string(&rt, "steps")?;
    for line in text.lines() {
        let Case { name, nodes, steps } = case_of(rt.alloc(), line).context(line)?;
        let answer = answer(rt.alloc(), nodes, &steps)?;
        println!(rt; "{name}: {answer}")?;
    }
    Ok(())
}
