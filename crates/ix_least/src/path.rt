//! Paths.

ghost use Rattle.std.specs.Prelude.{◌≡◌, ◌<◌, length, slice_get, Some};

use std::marker::Model;

/// A path: a source, and the edges from it on. It has less than 2^32 edges.
#[derive(Drop)]
pub struct Path {
    pub(crate) source: u32,
    pub(crate) edges: Vec<(u32, u32)>,
}

impl Model for Path {
    ghost use Rattle.std.specs.Prelude.{◌<◌, ◌^◌, length};
    ghost use Rattle.ix_least.specs.Walks.{Way};

    ghost Value = { Way };

    ghost view = { λ p. record { source = p.source; edges = p.edges.items } };

    ghost invariant = { λ p. length p.edges.items < 2 ^ 32 };
}

impl Path {
    /// The source at which the path starts.
    pub fn source(&self) -> u32
        ensures { result ≡ self.now.source }
    {
        self.source
    }

    /// How many edges the path has.
    pub fn len(&self) -> u32
        ensures { result ≡ length self.now.edges }
    {
        self.edges.len() as u32
    }

    /// An edge of the path, from 0: its number, and the point that it enters.
    pub fn at(&self, i: u32) -> (u32, u32)
        requires { i < length self.now.edges }
        ensures { slice_get self.now.edges i ≡ Some result }
    {
        self.edges[i as usize]
    }
}
