//! Searches.

ghost use Rattle.std.specs.Prelude.{◌≡◌, ◌↔◌, ℕ, ◌<◌, All, IfOk, IfSome, IfNone};
ghost use Rattle.ix_least.specs.Walks.{HasWalk, IsLeastPath, IsLeastWalk, AreConsistent, asked};

use crate::asked::{Bounds, Costs, Edges};
use crate::front::{reach, trace};
use crate::labels::Labels;
use crate::path::Path;
use crate::queue::{KeyQueue, NearQueue};
use ix_num::Memory;
use std::alloc::Global;
use std::marker::Model;

/// Searches of least paths in graphs of one number of points. In contracts it is that number: what
/// was searched before changes no answer.
///
/// It keeps 24 bytes a point, and what the queue took at its longest: 16 bytes an entry, or 24
/// where bounds are given.
#[derive(Drop)]
pub struct Search {
    labels: Labels,
    // For searches without bounds, and for those with them.
    near: NearQueue,
    keyed: KeyQueue,
    alloc: Global,
}

impl Model for Search {
    ghost use Rattle.std.specs.Prelude.{ℕ, ◌<◌, ◌^◌, length};

    ghost Value = { ℕ };

    ghost view = { λ s. length s.labels };

    ghost invariant = { λ s. length s.labels < 2 ^ 32 };
}

impl Search {
    /// A search of graphs of so many points.
    ///
    /// # Errors
    ///
    /// `Memory`.
    pub fn new(alloc: Global, points: u32) -> Result<Search, Memory>
        ensures { IfOk result (λ search. search ≡ points) }
    {
        Ok(Search {
            labels: Labels::new(alloc, points)?,
            near: NearQueue::new(alloc),
            keyed: KeyQueue::new(alloc),
            alloc,
        })
    }

    /// The least path from the sources to the target, or `None` exactly where no walk leads there.
    ///
    /// A walk's cost is the sum of what the points cost that it enters. The path is traced back
    /// from the target: each point is entered by the edge of the least number that ends a walk of
    /// least cost to it, until a source is reached. A target that is a source has the path without
    /// edges.
    ///
    /// It takes time by the points that it reaches and the edges out of those that it settles,
    /// whatever the number of points. Its room for labels is kept from one search to the next, and
    /// that of the queue as large as it was.
    ///
    /// # Errors
    ///
    /// `Memory`. The next search answers as on a new `Search`.
    pub fn find<E: Edges, C: Costs>(
        &mut self,
        edges: &E,
        costs: &C,
        sources: &[u32],
        target: u32,
    ) -> Result<Option<Path>, Memory>
        requires points { E.point_count edges.now ≡ self.old }
        requires sources { All (λ source. source < self.old) sources.now }
        requires target { target < self.old }
        ensures path { IfOk result (λ answer. IfSome answer
            (IsLeastPath (asked (E.point_count edges.now) (E.edges_out edges.now)
            (C.cost_at costs.now) sources.now) target)) }
        ensures walk { IfOk result (λ answer. IfSome answer
            (IsLeastWalk (asked (E.point_count edges.now) (E.edges_out edges.now)
            (C.cost_at costs.now) sources.now) target)) }
        ensures none { IfOk result (λ answer. IfNone answer
            ((cost : ℕ) → HasWalk (asked (E.point_count edges.now) (E.edges_out edges.now)
            (C.cost_at costs.now) sources.now) target cost → ⊥)) }
        ensures points { self.new ≡ self.old }
    {
        if reach(
            &mut self.labels,
            &mut self.near,
            edges,
            costs,
            &NoBounds,
            sources,
            target,
        )? {
            Ok(Some(trace(&self.labels, self.alloc, target)?))
        } else {
            Ok(None)
        }
    }

    /// As `find`, and the answer is the same, ties included. The bounds lead the search towards the
    /// target: the nearer they come to the cost of the way that is left, the fewer points are
    /// settled.
    ///
    /// They are consistent: 0 at the target, and along an edge to a point that may be entered a
    /// bound falls by at most what that point costs.
    ///
    /// # Errors
    ///
    /// `Memory`. The next search answers as on a new `Search`.
    pub fn find_bounded<E: Edges, C: Costs, B: Bounds>(
        &mut self,
        edges: &E,
        costs: &C,
        bounds: &B,
        sources: &[u32],
        target: u32,
    ) -> Result<Option<Path>, Memory>
        requires points { E.point_count edges.now ≡ self.old }
        requires sources { All (λ source. source < self.old) sources.now }
        requires target { target < self.old }
        requires bounds { AreConsistent (asked (E.point_count edges.now) (E.edges_out edges.now)
            (C.cost_at costs.now) sources.now) (B.bound_at bounds.now) target }
        ensures path { IfOk result (λ answer. IfSome answer
            (IsLeastPath (asked (E.point_count edges.now) (E.edges_out edges.now)
            (C.cost_at costs.now) sources.now) target)) }
        ensures walk { IfOk result (λ answer. IfSome answer
            (IsLeastWalk (asked (E.point_count edges.now) (E.edges_out edges.now)
            (C.cost_at costs.now) sources.now) target)) }
        ensures none { IfOk result (λ answer. IfNone answer
            ((cost : ℕ) → HasWalk (asked (E.point_count edges.now) (E.edges_out edges.now)
            (C.cost_at costs.now) sources.now) target cost → ⊥)) }
        ensures points { self.new ≡ self.old }
    {
        if reach(
            &mut self.labels,
            &mut self.keyed,
            edges,
            costs,
            bounds,
            sources,
            target,
        )? {
            Ok(Some(trace(&self.labels, self.alloc, target)?))
        } else {
            Ok(None)
        }
    }
}

/// The bound that says nothing.
struct NoBounds;

impl Bounds for NoBounds {
    ghost bound_at = { λ _ _. 0 };

    fn least(&self, _p: u32) -> u64 {
        0
    }
}
