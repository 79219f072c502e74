//! How much a call takes at most.

ghost use Rattle.std.specs.Prelude.{◌≡◌, ◌<◌, ◌≤◌, Some, None};
ghost use Rattle.ix_shelf.specs.Faults.{within};

use std::marker::Model;

/// How many bytes a call takes or gives at most: at least one, or as many as there are.
#[derive(Drop)]
pub struct Limit {
    most: Option<u32>,
}

impl Model for Limit {
    ghost use Rattle.std.specs.Prelude.{ℕ, ◌<◌, Option, IfSome};

    ghost Value = { Option ℕ };

    ghost view = { λ l. l.most };

    ghost invariant = { λ l. IfSome l.most (λ most. 0 < most) };
}

impl Limit {
    /// As many as there are.
    pub fn none() -> Limit
        ensures { result ≡ None }
    {
        Limit { most: None }
    }

    /// At most so many.
    pub fn new(most: u32) -> Limit
        requires { 0 < most }
        ensures { result ≡ Some most }
    {
        Limit { most: Some(most) }
    }

    /// How many of so many a call takes.
    pub fn within(&self, size: usize) -> usize
        ensures size { result ≡ within self.now size }
        ensures most { result ≤ size }
        ensures some { 0 < size → 0 < result }
    {
        match self.most {
            Some(most) => size.min(most as usize),
            None => size,
        }
    }
}
