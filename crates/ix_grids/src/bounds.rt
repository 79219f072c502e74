//! Bounds, and whether they are consistent.

ghost use Rattle.std.specs.Prelude.{◌≡◌, ℕ, ◌+◌, ◌<◌, ◌≤◌, List, Contains, IsTrue, Some};
ghost use Rattle.std.specs.Prelude.{slice_index};
ghost use Rattle.ix_least.specs.Walks.{AreConsistent, asked};

use ix_least::{Bounds, Costs, Edges};
use std::alloc::{AllocError, Global};

/// A bound for each point.
#[derive(Drop)]
pub struct Table {
    bounds: Vec<u64>,
}

impl Bounds for Table {
    ghost bound_at = { λ t p. slice_index t.bounds.items p };

    fn least(&self, p: u32) -> u64 {
        match self.bounds.get(p as usize) {
            Some(bound) => *bound,
            None => 0,
        }
    }
}

/// The distance of each of so many points from the target along rows of this width and columns.
pub fn distances(
    alloc: Global,
    width: usize,
    points: u32,
    target: u32,
) -> Result<Table, AllocError> {
    let mut bounds = Vec::new(alloc);
    let width = width.max(1) as u64;
    let (row, column) = (u64::from(target) / width, u64::from(target) % width);
    for p in 0..points {
        let rows = (u64::from(p) / width).abs_diff(row);
        let columns = (u64::from(p) % width).abs_diff(column);
        bounds.push(rows.saturating_add(columns))?;
    }
    Ok(Table { bounds })
}

/// Whether the bounds are consistent.
pub fn are_consistent<E: Edges, C: Costs, B: Bounds>(
    edges: &E,
    costs: &C,
    bounds: &B,
    target: u32,
) -> bool
    ensures { IsTrue result → (sources : List ℕ)
        → AreConsistent (asked (E.point_count edges.now) (E.edges_out edges.now)
        (C.cost_at costs.now) sources) (B.bound_at bounds.now) target }
{
    if bounds.least(target) != 0 {
        return false;
    }
    for p in 0..edges.points() {
        if !is_consistent_at(edges, costs, bounds, p) {
            return false;
        }
    }
    true
}

// Whether no step from the point falls by more than it costs.
fn is_consistent_at<E: Edges, C: Costs, B: Bounds>(edges: &E, costs: &C, bounds: &B, p: u32) -> bool
    requires { p < E.point_count edges.now }
    ensures { IsTrue result → (edge to cost : ℕ) → Contains (E.edges_out edges.now p) (edge, to)
        → C.cost_at costs.now to ≡ Some cost → B.bound_at bounds.now p
        ≤ cost + B.bound_at bounds.now to }
{
    for i in 0..edges.degree(p) {
        let (_, to) = edges.edge(p, i);
        if let Some(cost) = costs.cost(to) {
            if bounds.least(p).saturating_sub(cost) > bounds.least(to) {
                return false;
            }
        }
    }
    true
}
