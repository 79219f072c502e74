//! Whether a list of steps is lawful.

ghost use Rattle.std.specs.Prelude.{◌≡◌, ◌↔◌, IsTrue};
ghost use Rattle.std.specs.List.{Contains};
ghost use Rattle.ix_occupy.specs.Steps.{holders, IsLawful, MayFollow};
ghost use Rattle.ix_occupy.specs.Held.{held_after};

use crate::steps::Step;
use ix_num::NodeId;

/// Whether a list of steps is lawful: each claim is of a node that the net doesn't hold, and each
/// release of one that it holds. `replay` asks it. The time grows with the square of the list.
pub fn is_lawful(steps: &[Step]) -> bool
    ensures { IsTrue result ↔ IsLawful steps.now }
{
    for i in 0..steps.len() {
        if !may_follow(&steps[..i], steps[i]) {
            return false;
        }
    }
    true
}

// Whether the step may come after these.
fn may_follow(before: &[Step], step: Step) -> bool
    ensures { IsTrue result ↔ MayFollow before.now step }
{
    match step {
        Step::Claim(net, node) => !holds(before, net, node),
        Step::Release(net, node) => holds(before, net, node),
        Step::End => true,
    }
}

// Whether the net holds the node after these steps.
fn holds(steps: &[Step], net: u32, node: NodeId) -> bool
    ensures { IsTrue result ↔ Contains (holders steps.now node) net }
{
    let mut held = false;
    for step in steps {
        held = holds_after(held, *step, net, node);
    }
    held
}

// Whether the net holds the node after one step more.
fn holds_after(held: bool, step: Step, net: u32, node: NodeId) -> bool
    ensures { result ≡ held_after held step net node }
{
    match step {
        Step::Claim(other, place) => held || (other == net && place == node),
        Step::Release(other, place) => held && !(other == net && place == node),
        Step::End => held,
    }
}
