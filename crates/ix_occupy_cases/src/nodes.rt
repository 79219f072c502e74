//! Whether a list of steps is of so many nodes.

ghost use Rattle.std.specs.Prelude.{IsTrue};
ghost use Rattle.std.specs.List.{All};
ghost use Rattle.ix_occupy.specs.Steps.{IsOfNodes};

use ix_occupy::Step;

/// Whether each step is of one of so many nodes.
pub(crate) fn are_of_nodes(steps: &[Step], nodes: u32) -> bool
    ensures { IsTrue result → All (λ step. IsOfNodes nodes step) steps.now }
{
    for step in steps {
        if !is_of_nodes(*step, nodes) {
            return false;
        }
    }
    true
}

fn is_of_nodes(step: Step, nodes: u32) -> bool
    ensures { IsTrue result → IsOfNodes nodes step }
{
    match step {
        Step::Claim(_, node) | Step::Release(_, node) => node.get() < nodes,
        Step::End => true,
    }
}
