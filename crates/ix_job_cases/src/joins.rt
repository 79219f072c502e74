//! The job of the cases.

ghost use Rattle.std.specs.Prelude.{◌≡◌, ◌++◌, ◌∷◌, [], Some, length, map, IfOk};
ghost use Rattle.ix_job.specs.Job.{HasOutputs};
ghost use Rattle.ix_job.specs.Views.{content_seen, outcome_seen};
ghost use Rattle.ix_job_cases.specs.Joins.{joined, IsJoined};

use ix_job::{Content, Outcome, Work};
use ix_num::Memory;
use ix_rec::{Bytes, File, Items, Place, Rule};
use ix_report::Report;
use std::alloc::Global;

/// Joins two files in both orders.
#[derive(Clone, Copy)]
pub struct Joins;

/// The bytes of one file and then of another.
fn one_after_other(alloc: Global, first: &[u8], second: &[u8]) -> Result<Bytes, Memory>
    ensures { IfOk result (λ bytes. bytes ≡ first.now ++ second.now) }
{
    let mut bytes = Vec::from_slice(alloc, first)?;
    bytes.extend_from_slice(second)?;
    Ok(Bytes::new(bytes))
}

/// Both orders.
fn both(alloc: Global, a: &[u8], b: &[u8]) -> Result<Items<Bytes>, Memory>
    ensures { IfOk result (λ outputs. outputs ≡ (a.now ++ b.now) ∷ (b.now ++ a.now) ∷ []) }
{
    let mut outputs = Items::new(alloc);
    outputs.push(one_after_other(alloc, a, b)?)?;
    outputs.push(one_after_other(alloc, b, a)?)?;
    Ok(outputs)
}

/// What two files come to.
fn outcome_of(alloc: Global, a: &[u8], b: &[u8]) -> Result<Outcome, Memory>
    ensures { IfOk result (λ outcome. outcome_seen outcome ≡ joined (Some a.now) (Some b.now)) }
{
    if a.is_empty() {
        Ok(Outcome {
            report: Report::No {
                rule: Rule::E2,
                place: Place::File,
            },
            outputs: Items::new(alloc),
        })
    } else {
        Ok(Outcome {
            report: Report::Demo {
                number: 1,
                luts: 2,
                flip_flops: 3,
                ports: 4,
            },
            outputs: both(alloc, a, b)?,
        })
    }
}

/// What two contents come to.
fn joined_contents(alloc: Global, a: &Content, b: &Content) -> Result<Outcome, Memory>
    ensures { IfOk result (λ outcome. outcome_seen outcome
        ≡ joined (content_seen a.now) (content_seen b.now)) }
{
    match a {
        Content::Bytes(first) => match b {
            Content::Bytes(second) => outcome_of(alloc, first.as_slice(), second.as_slice()),
            Content::TooLarge => Ok(refusal(alloc)),
        },
        Content::TooLarge => Ok(refusal(alloc)),
    }
}

/// The outcome where a file is too large.
fn refusal(alloc: Global) -> Outcome
    ensures { outcome_seen result ≡ record { report = Report.NotBuilt File.Device; outputs = [] } }
{
    Outcome {
        report: Report::NotBuilt(File::Device),
        outputs: Items::new(alloc),
    }
}

impl Work for Joins {
    ghost inputs_count = { λ work. 2 };

    ghost outputs_count = { λ work. 2 };

    ghost is_outcome = { λ work. IsJoined };

    fn outcome(&self, alloc: Global, inputs: &Items<Content>) -> Result<Outcome, Memory>
        requires { length inputs.now ≡ 2 }
        ensures outcome { IfOk result (λ outcome. IsJoined (map content_seen inputs.now)
            (outcome_seen outcome)) }
        ensures outputs { IfOk result (λ outcome. HasOutputs 2 (outcome_seen outcome)) }
    {
        joined_contents(alloc, inputs.at(0), inputs.at(1))
    }
}
