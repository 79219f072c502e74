//! How many structs of each kind were begun.

ghost use Rattle.std.specs.Prelude.{◌≡◌, ◌<◌, replicate, slice_index};
ghost use Rattle.ix_device_read.specs.Finish.{with_one_more};

use std::marker::Model;

/// How many kinds of structs are counted at most.
pub const KINDS: usize = 32;

/// How many structs of each kind were begun so far, in reading order. A count stays at 2^32 - 1,
/// which no message reaches.
#[derive(Drop)]
pub struct Walk {
    counts: [u32; KINDS],
}

impl Model for Walk {
    ghost use Rattle.std.specs.Prelude.{List, ℕ};

    ghost Value = { List ℕ };

    ghost view = { λ walk. walk.counts };
}

impl Walk {
    /// Nothing was begun.
    pub fn new() -> Walk
        ensures { result ≡ replicate 32 0 }
    {
        Walk { counts: [0; KINDS] }
    }

    /// A struct of this kind is begun.
    pub fn begin(&mut self, kind: usize)
        requires { kind < KINDS }
        ensures { with_one_more self.old kind ≡ self.new }
    {
        self.counts[kind] = self.counts[kind].saturating_add(1);
    }

    /// How many of this kind were begun.
    pub fn count(&self, kind: usize) -> u32
        requires { kind < KINDS }
        ensures { result ≡ slice_index self.now kind }
    {
        self.counts[kind]
    }
}
