//! Why a file has no reading.

ghost use Rattle.std.specs.Prelude.{◌≡◌};
ghost use Rattle.ix_rec.specs.declared.fault.ReadFault.TheVariants.{Frame, Memory as NoMemory};

use crate::place::Place;
use ix_num::{FrameFault, Memory};
use thiserror::Error;

/// Why a reader gives no record.
#[derive(Debug, Drop, Error)]
pub enum ReadFault {
    /// The first rule that the frame breaks.
    #[error("{0}")]
    Frame(FrameFault),
    /// The first index, enumerant or tag that is out of its list.
    #[error("an index out of its list at {0:?}")]
    Index(Place),
    /// Want of memory.
    #[error("out of memory")]
    Memory,
}

impl From<FrameFault> for ReadFault {
    ghost from_gives = { λ fault result. result ≡ Frame fault };

    fn from(fault: FrameFault) -> ReadFault {
        ReadFault::Frame(fault)
    }
}

impl From<Memory> for ReadFault {
    ghost from_gives = { λ _ result. result ≡ NoMemory };

    fn from(_memory: Memory) -> ReadFault {
        ReadFault::Memory
    }
}
