//! The work of a job.

ghost use Rattle.std.specs.Prelude.{◌≡◌, ℕ, List, length, map, IfOk};
ghost use Rattle.ix_job.specs.Job.{Content as ContentSeen, Outcome as OutcomeSeen, HasOutputs};
ghost use Rattle.ix_job.specs.Views.{content_seen, outcome_seen};

use ix_num::Memory;
use ix_rec::{Bytes, Items};
use ix_report::Report;
use std::alloc::Global;

/// What is known of an input that was read to its end, or until it was too long.
#[derive(Drop)]
pub enum Content {
    /// All its bytes.
    Bytes(Bytes),
    /// It has more than 2^30 bytes.
    TooLarge,
}

/// What a job comes to.
#[derive(Drop)]
pub struct Outcome {
    /// What is told of it.
    pub report: Report,
    /// The bytes of its outputs, in the order of their names; none where nothing is written.
    pub outputs: Items<Bytes>,
}

/// What is done with the contents of a job's inputs.
pub trait Work {
    /// How many inputs the job has.
    ghost inputs_count: { Self → ℕ };

    /// How many outputs the job has where it is done.
    ghost outputs_count: { Self → ℕ };

    /// Whether the job may come to this with these contents, which stand in the order of the
    /// inputs' names.
    ghost is_outcome: { Self → List ContentSeen → OutcomeSeen → Type 0 };

    /// What the job comes to. `Memory` is its only error.
    fn outcome(&self, alloc: Global, inputs: &Items<Content>) -> Result<Outcome, Memory>
        requires { length inputs.now ≡ inputs_count self.now }
        ensures outcome { IfOk result (λ outcome. is_outcome self.now (map content_seen inputs.now)
            (outcome_seen outcome)) }
        ensures outputs { IfOk result (λ outcome. HasOutputs (outputs_count self.now)
            (outcome_seen outcome)) };
}
