//! Why cells have no places.

ghost use Rattle.std.specs.Prelude.{◌≡◌};
ghost use Rattle.ix_first_fit.specs.declared.fault.FitFault.TheVariants.{Memory as NoMemory};

use ix_num::{Memory, NameId};
use thiserror::Error;

/// Why cells have no places by first fit.
#[derive(Debug, Drop, Error)]
pub enum FitFault {
    /// The first type, by first cell, that has more cells than the BELs that admit it.
    #[error("too few BELs")]
    TooFewBels {
        /// The type.
        kind: NameId,
        /// How many cells it has.
        cells: u64,
        /// How many BELs of sites admit it.
        bels: u64,
    },
    /// No type has too few BELs, and first fit stops at a cell.
    #[error("no site")]
    NoSite {
        /// The cell's place among the cells.
        cell: u32,
    },
    /// Want of memory.
    #[error("out of memory")]
    Memory,
}

impl From<Memory> for FitFault {
    ghost from_gives = { λ _ result. result ≡ NoMemory };

    fn from(_memory: Memory) -> FitFault {
        FitFault::Memory
    }
}
