//! Why a walk over segments ends early.

ghost use Rattle.std.specs.Prelude.{◌≡◌};
ghost use Rattle.ix_ends.specs.declared.stop.Stop.TheVariants.{Memory as NoMemory};

use ix_num::Memory;

/// Why a walk over segments ends early.
#[derive(Drop)]
pub enum Stop {
    /// A segment has no ends: its number.
    NoEnds(u32),
    /// Want of memory.
    Memory,
}

impl From<Memory> for Stop {
    ghost from_gives = { λ _ result. result ≡ NoMemory };

    fn from(_memory: Memory) -> Stop {
        Stop::Memory
    }
}
