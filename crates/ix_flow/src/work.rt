//! `flow` as the work of a job.

ghost use Rattle.std.specs.Prelude.{◌≡◌, length, map, IfOk};
ghost use Rattle.ix_job.specs.Job.{HasOutputs};
ghost use Rattle.ix_job.specs.Views.{content_seen, outcome_seen};
ghost use Rattle.ix_flow.specs.Answer.{IsFlowOutcome};

use crate::answer::answer;
use ix_job::{Content, Outcome, Work, refused};
use ix_num::Memory;
use ix_rec::Items;
use std::alloc::Global;

/// What `flow` does with a device and a design.
#[derive(Clone, Copy)]
pub(crate) struct FlowWork;

impl Work for FlowWork {
    ghost inputs_count = { λ work. 2 };

    ghost outputs_count = { λ work. 1 };

    ghost is_outcome = { λ work. IsFlowOutcome };

    fn outcome(&self, alloc: Global, inputs: &Items<Content>) -> Result<Outcome, Memory>
        requires { length inputs.now ≡ 2 }
        ensures outcome { IfOk result (λ outcome. IsFlowOutcome (map content_seen inputs.now)
            (outcome_seen outcome)) }
        ensures outputs { IfOk result (λ outcome. HasOutputs 1 (outcome_seen outcome)) }
    {
        match answer(alloc, inputs.at(0), inputs.at(1)) {
            Ok(outcome) => Ok(outcome),
            Err(stop) => refused(alloc, stop),
        }
    }
}
