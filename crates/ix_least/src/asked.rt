//! What a search is asked: a graph, what its points cost, and bounds on the way that is left.

ghost use Rattle.std.specs.Prelude.{◌≡◌, ℕ, ◌^◌, ◌<◌, ◌≤◌, List, length, Option, Some};
ghost use Rattle.std.specs.Prelude.{IfSome, slice_get};

/// A graph: points, numbered from 0, and the edges out of each.
///
/// Each edge has a number of its own. Where two edges had the same, a search would still answer a
/// path that the tie rule allows.
pub trait Edges {
    /// How many points there are.
    ghost point_count: { Self → ℕ };

    /// The edges out of a point: of each its number, and the point that it enters.
    ghost edges_out: { Self → ℕ → List (ℕ × ℕ) };

    /// How many points there are. Their numbers are those below it.
    fn points(&self) -> u32
        ensures { result ≡ point_count self.now };

    /// How many edges lead out of a point.
    fn degree(&self, p: u32) -> u32
        requires { p < point_count self.now }
        ensures { result ≡ length (edges_out self.now p) };

    /// An edge out of a point, from 0: its number, and the point that it enters.
    fn edge(&self, p: u32, i: u32) -> (u32, u32)
        requires point { p < point_count self.now }
        requires edge { i < length (edges_out self.now p) }
        ensures edge { slice_get (edges_out self.now p) i ≡ Some result }
        ensures inside { result.1 < point_count self.now };
}

/// What it costs to enter each point.
pub trait Costs {
    /// What it costs to enter a point, where it may be entered.
    ghost cost_at: { Self → ℕ → Option ℕ };

    /// What it costs to enter a point, from 1 to 2^32, or `None` where it may not be entered.
    fn cost(&self, p: u32) -> Option<u64>
        ensures cost { result ≡ cost_at self.now p }
        ensures some { IfSome result (λ cost. 1 ≤ cost) }
        ensures small { IfSome result (λ cost. cost ≤ 2 ^ 32) };
}

/// A lower bound on what is left of the way from each point to the target of a search.
pub trait Bounds {
    /// The bound at a point.
    ghost bound_at: { Self → ℕ → ℕ };

    /// The bound at a point.
    fn least(&self, p: u32) -> u64
        ensures { result ≡ bound_at self.now p };
}
