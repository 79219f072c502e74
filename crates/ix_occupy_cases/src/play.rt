//! A list of steps taken one by one.

ghost use Rattle.std.specs.Prelude.{◌≡◌, length, IfOk, IfSome};

use ix_num::Memory;
use ix_occupy::{Occupancy, Step};
use std::alloc::Global;

// Takes a step where the occupancy allows it, and tells whether it did.
fn take(occupancy: &mut Occupancy, nodes: u32, step: Step) -> bool
    requires { length occupancy.old ≡ nodes }
    ensures { length occupancy.new ≡ nodes }
{
    match step {
        Step::Claim(_, node) => {
            let room = node.get() < nodes && occupancy.others(node, false) < u32::MAX;
            if room {
                occupancy.claim(node);
            }
            room
        }
        Step::Release(_, node) => {
            let held = node.get() < nodes && occupancy.others(node, false) > 0;
            if held {
                occupancy.release(node);
            }
            held
        }
        Step::End => {
            occupancy.end_round();
            true
        }
    }
}

/// The occupancy after these steps, None where one of them can't be taken.
pub(crate) fn played(alloc: Global, nodes: u32, steps: &[Step]) -> Result<Option<Occupancy>, Memory>
    ensures { IfOk result (λ occupancy. IfSome occupancy (λ o. length o ≡ nodes)) }
{
    let mut occupancy = Occupancy::new(alloc, nodes)?;
    for step in steps {
        if !take(&mut occupancy, nodes, *step) {
            return Ok(None);
        }
    }
    Ok(Some(occupancy))
}
