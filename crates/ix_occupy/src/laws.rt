//! Laws over the definitions, which calls of other crates rest on.

ghost use Rattle.std.specs.Prelude.{ℕ, ◌^◌, ◌≤◌, List};
ghost use Rattle.ix_occupy.specs.Steps.{IsLawful, holders, times};
ghost use Rattle.ix_occupy.specs.Costs.{node_cost};
ghost use Rattle.ix_occupy.specs.declared.steps.Step.{Step};

/// Whatever the round, the history and the other holders of a node, its cost is at least 1 and at
/// most 2^32. A search for least paths asks this of the cost of a node.
pub fn costs_are_in_range()
    ensures positive { (round hist others : ℕ) → 1 ≤ node_cost round hist others }
    ensures bounded { (round hist others : ℕ) → node_cost round hist others ≤ 2 ^ 32 }
{}

/// After a lawful list of steps no net is twice among the holders of a node, so their number is
/// that of the nets.
pub fn holders_differ()
    ensures { (steps : List Step) (node net : ℕ) → IsLawful steps
        → times net (holders steps node) ≤ 1 }
{}
