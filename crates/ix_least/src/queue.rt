//! Queues of the points that are to be settled.

ghost use Rattle.std.specs.Prelude.{◌≡◌, ℕ, ◌+◌, nat_eq, List, [], length, Contains, OnOk};
ghost use Rattle.std.specs.Prelude.{IfSome, IfNone};
ghost use Rattle.std.proofs.Common.{rules};
ghost use Rattle.std.specs.Cmp.{partial_order_from_own_ties};
ghost use Rattle.std.specs.Cmp.Rules.{comparing};
ghost use Rattle.std.specs.Ordering.{nat_cmp, on, flip_args, then_cmp, as_partial_cmp, eq_of_both};

use ix_num::Memory;
use std::alloc::Global;
use std::cmp::Ordering;
use std::collections::BinaryHeap;
use std::marker::Model;

/// A point that was reached: at which cost, and the key by which it is taken.
#[derive(Clone, Copy)]
pub(crate) struct Entry {
    pub(crate) key: u64,
    pub(crate) dist: u64,
    pub(crate) point: u32,
}

// Points of one key and cost are alike: which of them is taken first changes no answer, and each
// comparison of a heap that asks more costs time.
impl PartialEq for Entry {
    ghost eq = { eq_of_both (on (λ e. e.key) nat_eq) (on (λ e. e.dist) nat_eq) };

    ghost laws = { Prim.search (comparing, rules) };

    fn eq(&self, other: &Entry) -> bool {
        self.key == other.key && self.dist == other.dist
    }
}

impl Eq for Entry {
    ghost laws = { Prim.search (comparing, rules) };
}

// The greatest entry is the one with the least key, and of these the one with the least cost.
impl Ord for Entry {
    ghost cmp = { then_cmp (flip_args (on (λ e. e.key) nat_cmp))
        (flip_args (on (λ e. e.dist) nat_cmp)) };

    ghost total = { Prim.search (comparing, rules) };

    ghost matches_partial_cmp = { Prim.search (comparing, rules) };

    ghost matches_eq = { Prim.search (comparing, rules) };

    fn cmp(&self, other: &Entry) -> Ordering {
        other.key.cmp(&self.key).then(other.dist.cmp(&self.dist))
    }
}

impl PartialOrd for Entry {
    ghost partial_cmp = { as_partial_cmp (then_cmp (flip_args (on (λ e. e.key) nat_cmp))
        (flip_args (on (λ e. e.dist) nat_cmp))) };

    ghost laws = { partial_order_from_own_ties (Prim.search (comparing, rules))
        (Prim.search (comparing, rules)) };

    fn partial_cmp(&self, other: &Entry) -> Option<Ordering> {
        Some(self.cmp(other))
    }
}

/// A point that was reached, where its cost is its key. It takes 16 bytes and not 24.
#[derive(Clone, Copy)]
pub(crate) struct Near {
    pub(crate) dist: u64,
    pub(crate) point: u32,
}

// Points of one cost are alike, as above.
impl PartialEq for Near {
    ghost eq = { on (λ e. e.dist) nat_eq };

    ghost laws = { Prim.search (comparing, rules) };

    fn eq(&self, other: &Near) -> bool {
        self.dist == other.dist
    }
}

impl Eq for Near {
    ghost laws = { Prim.search (comparing, rules) };
}

// The greatest is the one with the least cost.
impl Ord for Near {
    ghost cmp = { flip_args (on (λ e. e.dist) nat_cmp) };

    ghost total = { Prim.search (comparing, rules) };

    ghost matches_partial_cmp = { Prim.search (comparing, rules) };

    ghost matches_eq = { Prim.search (comparing, rules) };

    fn cmp(&self, other: &Near) -> Ordering {
        other.dist.cmp(&self.dist)
    }
}

impl PartialOrd for Near {
    ghost partial_cmp = { as_partial_cmp (flip_args (on (λ e. e.dist) nat_cmp)) };

    ghost laws = { partial_order_from_own_ties (Prim.search (comparing, rules))
        (Prim.search (comparing, rules)) };

    fn partial_cmp(&self, other: &Near) -> Option<Ordering> {
        Some(self.cmp(other))
    }
}

/// A queue of points that were reached, some more than once.
pub(crate) trait Queue {
    ghost use Rattle.ix_least.specs.Queue.{Adds, TakesPoint};
    ghost use Rattle.ix_least.specs.declared.queue.Entry.{Entry};

    /// Its entries, in any order.
    ghost entries: { Self → List Entry };

    /// Which keys and costs it can hold.
    ghost fits: { ℕ → ℕ → Type 0 };

    /// Drops all entries, and keeps their memory.
    fn clear(&mut self)
        ensures { entries self.new ≡ [] };

    /// Adds a point.
    fn push(&mut self, key: u64, dist: u64, point: u32) -> Result<(), Memory>
        requires { fits key dist }
        ensures { OnOk result (Adds (record { key = key; dist = dist; point = point })
            (entries self.old) (entries self.new)) };

    /// Takes a point of an entry with the least key, and of these with the least cost.
    fn pop(&mut self) -> Option<u32>
        ensures taken { IfSome result (λ point. TakesPoint point (entries self.old)
            (entries self.new)) }
        ensures none { IfNone result (entries self.old ≡ []) };
}

/// A queue of points whose keys are their costs.
#[derive(Drop)]
pub(crate) struct NearQueue {
    heap: BinaryHeap<Near>,
}

impl Model for NearQueue {
    ghost use Rattle.std.specs.Prelude.{List, map};
    ghost use Rattle.std.specs.BinaryHeap.{heap_items, IsHeap};
    ghost use Rattle.ix_least.specs.declared.queue.Entry.{Entry};
    ghost use Rattle.ix_least.specs.Queue.{near_cmp, near_entry};

    ghost Value = { List Entry };

    ghost view = { λ q. map near_entry (heap_items q.heap) };

    ghost invariant = { λ q. IsHeap near_cmp (heap_items q.heap) };
}

impl NearQueue {
    /// A queue without entries. It takes its memory as it grows.
    pub(crate) fn new(alloc: Global) -> NearQueue
        ensures { result ≡ [] }
    {
        NearQueue {
            heap: BinaryHeap::new(alloc),
        }
    }
}

impl Queue for NearQueue {
    ghost entries = { λ q. q };

    ghost fits = { λ key dist. key ≡ dist };

    fn clear(&mut self) {
        self.heap.clear();
    }

    fn push(&mut self, _key: u64, dist: u64, point: u32) -> Result<(), Memory> {
        self.heap.push(Near { dist, point })?;
        Ok(())
    }

    fn pop(&mut self) -> Option<u32> {
        let Some(near) = self.heap.pop() else {
            return None;
        };
        Some(near.point)
    }
}

/// A queue of points with keys of their own.
#[derive(Drop)]
pub(crate) struct KeyQueue {
    heap: BinaryHeap<Entry>,
}

impl Model for KeyQueue {
    ghost use Rattle.std.specs.Prelude.{List};
    ghost use Rattle.std.specs.BinaryHeap.{heap_items, IsHeap};
    ghost use Rattle.ix_least.specs.declared.queue.Entry.{Entry};
    ghost use Rattle.ix_least.specs.Queue.{entry_cmp};

    ghost Value = { List Entry };

    ghost view = { λ q. heap_items q.heap };

    ghost invariant = { λ q. IsHeap entry_cmp (heap_items q.heap) };
}

impl KeyQueue {
    /// A queue without entries. It takes its memory as it grows.
    pub(crate) fn new(alloc: Global) -> KeyQueue
        ensures { result ≡ [] }
    {
        KeyQueue {
            heap: BinaryHeap::new(alloc),
        }
    }
}

impl Queue for KeyQueue {
    ghost entries = { λ q. q };

    ghost fits = { λ _ _. Unit {0} };

    fn clear(&mut self) {
        self.heap.clear();
    }

    fn push(&mut self, key: u64, dist: u64, point: u32) -> Result<(), Memory> {
        self.heap.push(Entry { key, dist, point })?;
        Ok(())
    }

    fn pop(&mut self) -> Option<u32> {
        let Some(entry) = self.heap.pop() else {
            return None;
        };
        Some(entry.point)
    }
}
