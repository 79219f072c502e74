//! Why the numbers of a message make no record.

ghost use Rattle.std.specs.Prelude.{◌≡◌};
ghost use Rattle.ix_take.specs.declared.stop.Stop.TheVariants.{Memory as NoMemory};

use ix_num::Memory;

/// Why a struct of a message makes no part of a record.
#[derive(Drop)]
pub enum Stop {
    /// A number is out of its list.
    OutOfList {
        /// Of which kind of struct.
        kind: usize,
        /// Which of its fields.
        field: usize,
        /// The how manieth of these structs, in reading order, from 0.
        index: u32,
    },
    /// Want of memory.
    Memory,
}

impl From<Memory> for Stop {
    ghost from_gives = { λ _ result. result ≡ NoMemory };

    fn from(_memory: Memory) -> Stop {
        Stop::Memory
    }
}
