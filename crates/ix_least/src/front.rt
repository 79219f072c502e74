//! The front of a search: the points reached and those to be settled.
//!
//! The search is Dijkstra's with a bound on the way that is left added to each key (E. W. Dijkstra,
//! 1959; P. E. Hart, N. J. Nilsson and B. Raphael, 1968). It departs from these where keys are
//! equal: points of one key are settled by rising cost. So each point by which a least path may
//! enter another is settled before it, also where keys reach the end of their type, and the tie
//! rule is met as soon as the target is taken.

ghost use Rattle.std.specs.Prelude.{◌≡◌, ◌≢◌, ℕ, ◌+◌, ◌*◌, ◌^◌, ◌<◌, ◌≤◌, List, [], length};
ghost use Rattle.std.specs.Prelude.{All, OnOk, IfOk, MatchBool};
ghost use Rattle.ix_least.specs.Walks.{Question, HasWalk, IsLeastPath, IsLeastWalk, asked};
ghost use Rattle.ix_least.specs.Labels.{open_weight};
ghost use Rattle.ix_least.specs.Settling.{key_of, IsOffered, LeavesUpTo, IsStarted, IsFound};
ghost use Rattle.ix_least.specs.Settling.{IsRising};

use crate::asked::{Bounds, Costs, Edges};
use crate::labels::{Label, Labels};
use crate::path::Path;
use crate::queue::Queue;
use ix_num::Memory;
use std::alloc::Global;

/// Settles points until the target is reached on a least walk, or no walk leads to it.
pub(crate) fn reach<E: Edges, C: Costs, B: Bounds, Q: Queue>(
    labels: &mut Labels,
    queue: &mut Q,
    edges: &E,
    costs: &C,
    bounds: &B,
    sources: &[u32],
    target: u32,
) -> Result<bool, Memory>
    requires few { length labels.old < 2 ^ 32 }
    requires points { E.point_count edges.now ≡ length labels.old }
    requires sources { All (λ source. source < length labels.old) sources.now }
    requires fits { (p dist : ℕ) → dist < 2 ^ 64 → Q.fits (key_of (B.bound_at bounds.now) p dist)
        dist }
    requires rising { IsRising (asked (E.point_count edges.now) (E.edges_out edges.now)
        (C.cost_at costs.now) sources.now) (key_of (B.bound_at bounds.now)) }
    ensures found { IfOk result (λ found. MatchBool found
        (IsFound (asked (E.point_count edges.now) (E.edges_out edges.now)
        (C.cost_at costs.now) sources.now) target labels.new)
        ((cost : ℕ) → HasWalk (asked (E.point_count edges.now) (E.edges_out edges.now)
        (C.cost_at costs.now) sources.now) target cost → ⊥)) }
    ensures size { length labels.new ≡ length labels.old }
{
    start(labels, queue, bounds, sources)?;
    while let Some(point) = queue.pop() {
        if point == target {
            return Ok(true);
        }
        if let Some(dist) = labels.settle(point) {
            leave(labels, queue, edges, costs, bounds, point, dist)?;
        }
    }
    Ok(false)
}

/// Begins a search: the sources are reached at no cost.
fn start<B: Bounds, Q: Queue>(
    labels: &mut Labels,
    queue: &mut Q,
    bounds: &B,
    sources: &[u32],
) -> Result<(), Memory>
    requires sources { All (λ source. source < length labels.old) sources.now }
    requires fits { (p dist : ℕ) → dist < 2 ^ 64 → Q.fits (key_of (B.bound_at bounds.now) p dist)
        dist }
    ensures started { OnOk result (IsStarted sources.now (key_of (B.bound_at bounds.now)) labels.new
        (Q.entries queue.new)) }
    ensures size { length labels.new ≡ length labels.old }
{
    labels.begin();
    queue.clear();
    for source in sources {
        let label = Label {
            dist: 0,
            edge: 0,
            from: *source,
            settled: false,
        };
        offer(labels, queue, bounds, *source, label)?;
    }
    Ok(())
}

/// Goes over the edges out of a point that was settled at this cost.
fn leave<E: Edges, C: Costs, B: Bounds, Q: Queue>(
    labels: &mut Labels,
    queue: &mut Q,
    edges: &E,
    costs: &C,
    bounds: &B,
    point: u32,
    dist: u64,
) -> Result<(), Memory>
    requires points { E.point_count edges.now ≡ length labels.old }
    requires point { point < length labels.old }
    requires room { dist + 2 ^ 32 < 2 ^ 64 }
    requires fits { (p dist : ℕ) → dist < 2 ^ 64 → Q.fits (key_of (B.bound_at bounds.now) p dist)
        dist }
    ensures left { OnOk result (LeavesUpTo (E.point_count edges.now) (E.edges_out edges.now)
        (C.cost_at costs.now) (key_of (B.bound_at bounds.now)) point dist
        (length (E.edges_out edges.now point)) labels.old labels.new (Q.entries queue.old)
        (Q.entries queue.new)) }
    ensures queue { OnOk result (length (Q.entries queue.new) ≤ length
        (Q.entries queue.old) + length (E.edges_out edges.now point)) }
    ensures size { length labels.new ≡ length labels.old }
{
    for i in 0..edges.degree(point) {
        let (edge, to) = edges.edge(point, i);
        if let Some(cost) = costs.cost(to) {
            let label = Label {
                dist: dist + cost,
                edge,
                from: point,
                settled: false,
            };
            offer(labels, queue, bounds, to, label)?;
        }
    }
    Ok(())
}

/// Offers a label of a point. It is taken where it costs less than the point's own, or as much by a
/// lower edge.
#[inline(always)]
fn offer<B: Bounds, Q: Queue>(
    labels: &mut Labels,
    queue: &mut Q,
    bounds: &B,
    point: u32,
    label: Label,
) -> Result<(), Memory>
    requires point { point < length labels.old }
    requires fits { (p dist : ℕ) → dist < 2 ^ 64 → Q.fits (key_of (B.bound_at bounds.now) p dist)
        dist }
    ensures offered { OnOk result (IsOffered (key_of (B.bound_at bounds.now)) point label labels.old
        labels.new (Q.entries queue.old) (Q.entries queue.new)) }
    ensures size { length labels.new ≡ length labels.old }
{
    if let Some(held) = labels.at(point) {
        if held.dist < label.dist {
            return Ok(());
        }
        if held.dist == label.dist {
            if label.edge < held.edge {
                labels.put(point, label);
            }
            return Ok(());
        }
    }
    let key = label.dist.saturating_add(bounds.least(point));
    queue.push(key, label.dist, point)?;
    labels.put(point, label);
    Ok(())
}

/// The path traced back from a target that was reached on a least walk.
pub(crate) fn trace(labels: &Labels, alloc: Global, target: u32) -> Result<Path, Memory>
    requires few { length labels.now < 2 ^ 32 }
    requires found { (q : Question) × IsFound q target labels.now }
    ensures path { IfOk result (λ path. (q : Question) → IsFound q target labels.now →
        IsLeastPath q target path) }
    ensures walk { IfOk result (λ path. (q : Question) → IsFound q target labels.now →
        IsLeastWalk q target path) }
{
    let mut edges = Vec::new(alloc);
    let mut point = target;
    let mut label = labels.known(point);
    while label.dist > 0 {
        edges.push((label.edge, point))?;
        point = label.from;
        label = labels.known(point);
    }
    edges.reverse();
    Ok(Path {
        source: point,
        edges,
    })
}
