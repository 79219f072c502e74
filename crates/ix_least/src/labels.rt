//! What a search knows of each point.

ghost use Rattle.std.specs.Prelude.{◌≡◌, ℕ, ◌<◌, ◌^◌, List, [], Some, None, false, true, All};
ghost use Rattle.std.specs.Prelude.{length, map, replicate, slice_get, slice_set, IfOk, IfSome};
ghost use Rattle.std.specs.Prelude.{IfNone};

use ix_num::Memory;
use std::alloc::Global;
use std::marker::Model;

/// What a search knows of a point that it reached.
#[derive(Clone, Copy)]
pub(crate) struct Label {
    /// The least cost of the walks seen so far from a source to the point.
    pub(crate) dist: u64,
    /// The least number of the edges that end such a walk.
    pub(crate) edge: u32,
    /// The point from which that edge leads.
    pub(crate) from: u32,
    /// Whether the edges out of the point were gone over.
    pub(crate) settled: bool,
}

// A label, and the number of the search to which it belongs. It takes 24 bytes.
#[derive(Clone, Copy)]
struct Slot {
    dist: u64,
    search: u32,
    edge: u32,
    from: u32,
    settled: bool,
}

/// A label for each point that the last search reached, 24 bytes a point. Contracts see the list of
/// the labels, by point.
#[derive(Drop)]
pub(crate) struct Labels {
    slots: Vec<Slot>,
    // The number of the last search. Labels of other searches stay where they are, and count as
    // none.
    search: u32,
}

impl Model for Labels {
    ghost use Rattle.std.specs.Prelude.{List, Option, ◌≤◌, All, map};
    ghost use Rattle.ix_least.specs.declared.labels.Label.{Label};
    ghost use Rattle.ix_least.specs.declared.labels.Slot.{Slot};
    ghost use Rattle.ix_least.specs.Labels.{label_in};

    ghost Value = { List (Option Label) };

    ghost view = { λ l. map (label_in l.search) l.slots.items };

    ghost invariant = { λ l. All (λ (slot : Slot). slot.search ≤ l.search) l.slots.items };
}

impl Labels {
    ghost use Rattle.ix_least.specs.Labels.{IsKnown, Settles};
    ghost use Rattle.ix_least.specs.declared.labels.Label.{Label};

    /// Room for the labels of so many points, none of which was reached.
    pub(crate) fn new(alloc: Global, points: u32) -> Result<Labels, Memory>
        ensures { IfOk result (λ labels. labels ≡ replicate points None) }
    {
        let blank = Slot {
            dist: 0,
            search: 0,
            edge: 0,
            from: 0,
            settled: false,
        };
        let mut slots = Vec::new(alloc);
        slots.resize(points as usize, blank)?;
        Ok(Labels { slots, search: 1 })
    }

    /// Begins the next search, in which no point was reached yet. Only where the searches' numbers
    /// are used up does it go over the points.
    pub(crate) fn begin(&mut self)
        ensures { self.new ≡ map (λ _. None) self.old }
    {
        if self.search == u32::MAX {
            forget(&mut self.slots);
            self.search = 0;
        }
        self.search += 1;
    }

    /// The label of a point that was reached.
    pub(crate) fn at(&self, p: u32) -> Option<Label>
        requires { p < length self.now }
        ensures { slice_get self.now p ≡ Some result }
    {
        let slot = &self.slots[p as usize];
        if slot.search == self.search {
            Some(Label {
                dist: slot.dist,
                edge: slot.edge,
                from: slot.from,
                settled: slot.settled,
            })
        } else {
            None
        }
    }

    /// The label of a point that is known to be reached.
    pub(crate) fn known(&self, p: u32) -> Label
        requires { (label : Label) × IsKnown self.now p label }
        ensures { IsKnown self.now p result }
    {
        let slot = &self.slots[p as usize];
        Label {
            dist: slot.dist,
            edge: slot.edge,
            from: slot.from,
            settled: slot.settled,
        }
    }

    /// Labels a point.
    pub(crate) fn put(&mut self, p: u32, label: Label)
        requires { p < length self.old }
        ensures { self.new ≡ slice_set self.old p (Some label) }
    {
        self.slots[p as usize] = Slot {
            dist: label.dist,
            search: self.search,
            edge: label.edge,
            from: label.from,
            settled: label.settled,
        };
    }

    /// Settles a point that was reached and isn't settled yet, and answers its cost.
    pub(crate) fn settle(&mut self, p: u32) -> Option<u64>
        requires { p < length self.old }
        ensures settled { IfSome result (λ dist. Settles p dist self.old self.new) }
        ensures before { IfNone result ((label : Label) → IsKnown self.old p label →
            label.settled ≡ true) }
        ensures unchanged { IfNone result (self.new ≡ self.old) }
    {
        let slot = &mut self.slots[p as usize];
        if slot.search != self.search || slot.settled {
            return None;
        }
        slot.settled = true;
        Some(slot.dist)
    }
}

// Makes all slots ones of no search.
fn forget(slots: &mut [Slot])
    ensures { All (λ slot. slot.search ≡ 0) slots.new }
{
    for slot in slots.iter_mut() {
        slot.search = 0;
    }
}
