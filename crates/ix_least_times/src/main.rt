//! Times searches of least paths in a grid, or in the node graph of a device.
//!
//! The words of the command line name a file of costs, a file of searches and, for a node graph,
//! the device. The costs are digits, one for each point, in lines: what the point costs to enter,
//! or 0 where it may not be entered. A grid has a line for each row. Each line of searches has a
//! name and pairs of points, `far 12-4711 0-55`; where the name ends with `:bounded` the distance
//! along rows and columns leads the searches.
//!
//! A line is printed for each line of searches: its name, how many paths there are, and a number
//! folded from their edges; on standard error, how long the searches took together.
#![tactic(auto)]

mod nodes;
mod reading;
mod sums;
mod timed;

use crate::nodes::nodes_of;
use crate::reading::{Words, words_of};
use crate::timed::time_lines;
use anyhow::{Context, Result};
use ix_grids::{Cells, Grid};
use std::fs;

fn main(rt: HostRuntime) -> Result<()> {
    let Words {
        costs,
        searches,
        device,
    } = words_of(&rt)?;
    let cells = Cells::of_rows(rt.alloc(), &fs::read_to_string(&rt, &costs)?)?;
    let searches = fs::read_to_string(&rt, &searches)?;
    match device {
        Some(device) => {
            let nodes = nodes_of(rt.alloc(), &fs::read(&rt, &device)?)?;
            time_lines(&rt, &nodes, &cells, cells.width(), &searches)
        }
        None => {
            let grid = Grid::new(cells.width(), cells.points()).context("no grid")?;
            time_lines(&rt, &grid, &cells, cells.width(), &searches)
        }
    }
}
