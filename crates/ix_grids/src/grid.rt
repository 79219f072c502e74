//! Grids.

ghost use Rattle.std.specs.Prelude.{◌≡◌, ℕ, ◌+◌, ◌*◌, ◌^◌, ◌<◌, ◌≤◌, length, Some, slice_get};
ghost use Rattle.ix_grids.specs.Grid.{grid_edges};

use ix_least::Edges;

/// A grid of points, row by row. Edges lead from each to the one on the right, on the left, below
/// and above, and at an end of the grid to its last or first point. The edges out of point `p` have
/// the numbers from `4p` to `4p + 3`.
#[derive(Clone, Copy)]
pub struct Grid {
    width: u32,
    points: u32,
    ghost some: { 0 < points },
    ghost few: { points ≤ 2 ^ 30 },
    ghost narrow: { width ≤ 2 ^ 30 },
}

impl Grid {
    /// A grid of so many points in each row and so many in all; `None` where there is no point, or
    /// where there are more than 2^30.
    pub fn new(width: usize, points: usize) -> Option<Grid> {
        if 0 < points && points <= MOST && width <= MOST {
            Some(Grid {
                width: width as u32,
                points: points as u32,
            })
        } else {
            None
        }
    }
}

/// The most points of a grid.
const MOST: usize = 1 << 30;

impl Edges for Grid {
    ghost point_count = { λ g. g.points };

    ghost edges_out = { λ g p. grid_edges g.width g.points p };

    fn points(&self) -> u32 {
        self.points
    }

    fn degree(&self, _p: u32) -> u32 {
        4
    }

    fn edge(&self, p: u32, i: u32) -> (u32, u32) {
        let last = self.points - 1;
        match i {
            0 => (4 * p, (p + 1).min(last)),
            1 => (4 * p + 1, p.saturating_sub(1)),
            2 => (4 * p + 2, (p + self.width).min(last)),
            _ => (4 * p + 3, p.saturating_sub(self.width)),
        }
    }
}
