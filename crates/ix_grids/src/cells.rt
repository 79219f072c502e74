//! What points cost.

ghost use Rattle.std.specs.Prelude.{slice_get};
ghost use Rattle.ix_grids.specs.Grid.{cell_cost};

use ix_least::Costs;
use std::alloc::{AllocError, Global};

/// What each point costs to enter, and 0 where it may not be entered.
#[derive(Drop)]
pub struct Cells {
    costs: Vec<u8>,
    width: usize,
}

impl Cells {
    /// The costs that are written row by row, a line each: a digit a point.
    pub fn of_rows(alloc: Global, text: &str) -> Result<Cells, AllocError> {
        let mut costs = Vec::new(alloc);
        let mut width = 0;
        for row in text.lines() {
            width = row.len();
            for digit in row.as_bytes() {
                costs.push(digit.saturating_sub(b'0'))?;
            }
        }
        Ok(Cells { costs, width })
    }

    /// How many points there are.
    pub fn points(&self) -> usize {
        self.costs.len()
    }

    /// How many points the last row has.
    pub fn width(&self) -> usize {
        self.width
    }
}

impl Costs for Cells {
    ghost cost_at = { λ c p. cell_cost (slice_get c.costs.items p) };

    fn cost(&self, p: u32) -> Option<u64> {
        match self.costs.get(p as usize) {
            Some(cost) => {
                let cost = *cost;
                if cost == 0 {
                    None
                } else {
                    Some(u64::from(cost))
                }
            }
            None => None,
        }
    }
}
