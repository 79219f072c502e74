//! Why a netlist has no flat design.

ghost use Rattle.ix_asked.specs.Faults.{IsTold};

use ix_num::Memory;
use ix_rec::{Rule, Word};
use std::alloc::Global;
use thiserror::Error;

/// Why a netlist has no flat design.
#[derive(Debug, Drop, Error)]
pub enum DesignFault {
    /// The first rule, in their order, that is broken, and the name that is told: of a declaration
    /// at N1, of a net in its cell at N2, else a flat name; empty at N10.
    #[error("{0:?} at {1:?}")]
    Broken(Rule, Word),
    /// Out of memory.
    #[error("out of memory")]
    Memory,
}

impl From<Memory> for DesignFault {
    ghost use Rattle.std.specs.Prelude.{◌≡◌};
    ghost use Rattle.ix_asked.specs.declared.fault.DesignFault.TheVariants.{Memory as NoMemory};

    ghost from_gives = { λ _ result. result ≡ NoMemory };

    fn from(_error: Memory) -> DesignFault {
        DesignFault::Memory
    }
}

/// A rule is broken, and this is told; else `Memory`.
pub fn broken(alloc: Global, rule: Rule, text: &str) -> DesignFault
    ensures { IsTold rule text.now result }
{
    match Word::new(alloc, text) {
        Ok(word) => DesignFault::Broken(rule, word),
        Err(_) => DesignFault::Memory,
    }
}
