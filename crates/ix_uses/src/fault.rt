//! Why the uses of a netlist aren't told.

ghost use Rattle.std.specs.Prelude.{◌≡◌};
ghost use Rattle.ix_uses.specs.declared.fault.UsesFault.TheVariants.{Memory as NoMemory};

use ix_legal::Spot;
use ix_num::Memory;

/// Why the uses of a netlist aren't told.
#[derive(Clone, Copy)]
pub enum UsesFault {
    /// The first place of the walk at which L2 is broken.
    Broken(Spot),
    /// Want of memory.
    Memory,
}

impl From<Memory> for UsesFault {
    ghost from_gives = { λ _ result. result ≡ NoMemory };

    fn from(_memory: Memory) -> UsesFault {
        UsesFault::Memory
    }
}
