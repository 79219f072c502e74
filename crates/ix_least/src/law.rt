//! What the definition of the least path comes to.

ghost use Rattle.ix_least.specs.Walks.{LeastPathsAreOne};

/// Where no two edges have one number there is at most one least path: the definition determines
/// the answer.
///
/// It does nothing.
pub fn least_paths_are_one()
    ensures { LeastPathsAreOne }
{}
