//! Searches a grid from each point to each: by `find` and, with the distance along rows and columns
//! as bound, by `find_bounded`.
//!
//! The file `grid` of `data` has the grid's rows, a line each: a digit for what a point costs to
//! enter, or 0 where it may not be entered. Prints a line for each source: how many targets are
//! reached, how many edges the paths have together, what they cost, and a number folded from the
//! edges' numbers in their order. Where the bounded searches tell another, it stands in a line
//! behind.
#![tactic(auto)]

mod told;

use crate::told::told_from;
use anyhow::{Context, Result};
use ix_grids::{Cells, Grid};
use ix_least::{Edges, Search};
use std::fs;

fn main(rt: HostRuntime) -> Result<()> {
    let alloc = rt.alloc();
    let rows = fs::read_to_string(&rt, "grid")?;
    let cells = Cells::of_rows(alloc, &rows)?;
    let grid = Grid::new(cells.width(), cells.points()).context("no grid")?;
    let mut search = Search::new(alloc, grid.points())?;
    for source in 0..grid.points() {
        let told = told_from(alloc, &mut search, &grid, &cells, source, None)?;
        println!(rt;
            "{source}: {} {} {} {}",
            told.reached, told.edges, told.cost, told.fold
        )?;
        let width = Some(cells.width());
        let bounded = told_from(alloc, &mut search, &grid, &cells, source, width)?;
        if bounded != told {
            println!(rt;
                "{source} bounded: {} {} {} {}",
                bounded.reached, bounded.edges, bounded.cost, bounded.fold
            )?;
        }
    }
    Ok(())
}
