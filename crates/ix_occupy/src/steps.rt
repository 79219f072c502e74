//! Lists of steps, and their occupancy.

ghost use Rattle.std.specs.Prelude.{◌^◌, ◌<◌, length, IfOk};
ghost use Rattle.std.specs.List.{All};
ghost use Rattle.ix_occupy.specs.Steps.{IsLawful, IsOfNodes};
ghost use Rattle.ix_occupy.specs.Loads.{IsAfter};

use crate::occupancy::Occupancy;
use ix_num::{Memory, NodeId};
use std::alloc::Global;

/// What a net does to a node, or the end of a round.
#[derive(Clone, Copy)]
pub enum Step {
    /// The net holds the node from here on.
    Claim(u32, NodeId),
    /// The net holds it no longer.
    Release(u32, NodeId),
    /// The end of a round.
    End,
}

/// The occupancy of so many nodes after these steps. `Memory` is the only error.
pub fn replay(alloc: Global, nodes: u32, steps: &[Step]) -> Result<Occupancy, Memory>
    requires lawful { IsLawful steps.now }
    requires nodes { All (λ step. IsOfNodes nodes step) steps.now }
    requires few { length steps.now < 2 ^ 32 }
    ensures { IfOk result (λ occupancy. IsAfter steps.now nodes occupancy) }
{
    let mut occupancy = Occupancy::new(alloc, nodes)?;
    for step in steps {
        match step {
            Step::Claim(_, node) => occupancy.claim(*node),
            Step::Release(_, node) => occupancy.release(*node),
            Step::End => occupancy.end_round(),
        }
    }
    Ok(occupancy)
}
