//! `check` as the work of a job.

ghost use Rattle.std.specs.Prelude.{◌≡◌, length, map, IfOk};
ghost use Rattle.ix_job.specs.Job.{HasOutputs};
ghost use Rattle.ix_job.specs.Views.{content_seen, outcome_seen};
ghost use Rattle.ix_flow.specs.CheckAnswer.{IsCheckOutcome};

use crate::check::check_answer;
use ix_job::{Content, Outcome, Work, refused};
use ix_legal::Level;
use ix_num::Memory;
use ix_rec::Items;
use std::alloc::Global;

/// What `check` does with a device, a design and a physical netlist.
#[derive(Clone, Copy)]
pub(crate) struct CheckWork {
    /// The level at which the netlist is judged.
    pub level: Level,
}

impl Work for CheckWork {
    ghost inputs_count = { λ work. 3 };

    ghost outputs_count = { λ work. 0 };

    ghost is_outcome = { λ work. IsCheckOutcome work.level };

    fn outcome(&self, alloc: Global, inputs: &Items<Content>) -> Result<Outcome, Memory>
        requires { length inputs.now ≡ 3 }
        ensures outcome { IfOk result (λ outcome. IsCheckOutcome self.now.level
            (map content_seen inputs.now) (outcome_seen outcome)) }
        ensures outputs { IfOk result (λ outcome. HasOutputs 0 (outcome_seen outcome)) }
    {
        match check_answer(alloc, inputs.at(0), inputs.at(1), inputs.at(2), self.level) {
            Ok(outcome) => Ok(outcome),
            Err(stop) => refused(alloc, stop),
        }
    }
}
