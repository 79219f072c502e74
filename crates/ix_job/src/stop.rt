//! Steps that refuse.

ghost use Rattle.std.specs.Prelude.{◌≡◌, [], IfOk, IfErr};
ghost use Rattle.ix_job.specs.declared.stop.Stop.TheVariants.{Memory as NoMemory};

use crate::work::Outcome;
use ix_num::Memory;
use ix_rec::Items;
use ix_report::Report;
use std::alloc::{AllocError, Global};

/// Why a command stops before its job is done.
#[derive(Drop)]
pub enum Stop {
    /// It refuses.
    Refused(Report),
    /// Out of memory.
    Memory,
}

impl From<Memory> for Stop {
    ghost from_gives = { λ _ result. result ≡ NoMemory };

    fn from(_memory: Memory) -> Stop {
        Stop::Memory
    }
}

impl From<AllocError> for Stop {
    ghost from_gives = { λ _ result. result ≡ NoMemory };

    fn from(_error: AllocError) -> Stop {
        Stop::Memory
    }
}

/// The outcome of a job that was refused: nothing is written. `Memory` where that was why it
/// stopped.
pub fn refused(alloc: Global, stop: Stop) -> Result<Outcome, Memory>
    ensures refused { IfOk result (λ outcome. stop ≡ Stop.Refused outcome.report) }
    ensures nothing { IfOk result (λ outcome. outcome.outputs ≡ []) }
    ensures memory { IfErr result (λ _. stop ≡ NoMemory) }
{
    match stop {
        Stop::Refused(report) => Ok(Outcome {
            report,
            outputs: Items::new(alloc),
        }),
        Stop::Memory => Err(Memory),
    }
}
