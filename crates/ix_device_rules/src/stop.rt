//! Why a walk over a device ends early.

ghost use Rattle.std.specs.Prelude.{◌≡◌};
ghost use Rattle.ix_device_rules.specs.declared.stop.Stop.TheVariants.{Memory as NoMemory};

use ix_num::Memory;
use ix_rec::Place;

/// Why a walk over a device ends early.
#[derive(Debug, Drop)]
pub enum Stop {
    /// A field doesn't fit: its place.
    Broken(Place),
    /// Want of memory.
    Memory,
}

impl From<Memory> for Stop {
    ghost from_gives = { λ _ result. result ≡ NoMemory };

    fn from(_memory: Memory) -> Stop {
        Stop::Memory
    }
}
