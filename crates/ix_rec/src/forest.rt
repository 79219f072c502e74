//! Trees, as a preorder list of depths and items.

ghost use Rattle.std.specs.Prelude.{◌≡◌, ◌<◌, ◌≤◌, ◌↔◌, [], ◌∷◌, ◌++◌, Some, length, slice_get};
ghost use Rattle.std.specs.Prelude.{take, IsTrue, OnErr, OnOk};
ghost use Rattle.ix_rec.specs.Forest.{IsPreorder, next_limit};

use crate::phys::Segment;
use ix_num::Memory;
use std::alloc::Global;
use std::marker::Model;

/// An item of a tree, with its depth.
#[derive(Drop)]
pub struct Branch<T> {
    /// How many items stand above it, up to its root: 0 at a root.
    pub depth: u32,
    /// The item.
    pub item: T,
}

/// Trees, one after another, each item before those below it. The first depth is 0, and each next
/// one is at most one more than the one before: there is no list that isn't so.
#[derive(Drop)]
pub struct Forest<T = Segment> {
    branches: Vec<Branch<T>>,
}

impl<T> Model for Forest<T> {
    ghost use Rattle.std.specs.Prelude.{List};
    ghost use Rattle.ix_rec.specs.declared.forest.Branch.{Branch};
    ghost use Rattle.ix_rec.specs.Forest.{IsPreorder};

    ghost Value = { List (Branch T) };

    ghost view = { λ f. f.branches.items };

    ghost invariant = { λ f. IsPreorder f.branches.items };
}

impl<T> Forest<T> {
    /// A forest without trees. It takes its memory from the allocator as it grows.
    pub fn new(alloc: Global) -> Forest<T>
        ensures { result ≡ [] }
    {
        Forest {
            branches: Vec::new(alloc),
        }
    }

    /// How many items there are.
    pub fn len(&self) -> usize
        ensures count { result ≡ length self.now }
        ensures preorder { IsPreorder self.now }
    {
        self.branches.len()
    }

    /// The item at a place, from 0, with its depth.
    pub fn at(&self, i: usize) -> &Branch<T>
        requires { i < length self.now }
        ensures branch { slice_get self.now i ≡ Some result.now }
        ensures steps { result.now.depth ≤ next_limit (take i self.now) }
        ensures preorder { IsPreorder self.now }
    {
        &self.branches[i]
    }

    /// The items, in preorder.
    pub fn as_slice(&self) -> &[Branch<T>]
        ensures branches { result.now ≡ self.now }
        ensures preorder { IsPreorder self.now }
    {
        self.branches.as_slice()
    }

    /// Whether an item of this depth may come next: at most one more than the last one's, and 0
    /// where there is none yet.
    pub fn takes(&self, depth: u32) -> bool
        ensures { IsTrue result ↔ (depth ≤ next_limit self.now) }
    {
        match self.branches.as_slice().last() {
            None => depth == 0,
            Some(last) => depth == 0 || depth - 1 <= last.depth,
        }
    }
}

impl<T: Drop> Forest<T> {
    /// Puts an item of this depth at the end. The forest grows, and after `Memory` it is as before;
    /// the item is given up.
    pub fn push(&mut self, depth: u32, item: T) -> Result<(), Memory>
        requires { depth ≤ next_limit self.old }
        ensures ok { OnOk result (self.new ≡ self.old ++ record { depth = depth; item = item }
            ∷ []) }
        ensures err { OnErr result (self.new ≡ self.old) }
        ensures preorder { IsPreorder self.new }
    {
        self.branches.push(Branch { depth, item })?;
        Ok(())
    }
}
