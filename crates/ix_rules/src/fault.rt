//! Why a netlist isn't found legal.

ghost use Rattle.std.specs.Prelude.{◌≡◌, ◌-◌, List};
ghost use Rattle.ix_message.specs.Shape.{Text};
ghost use Rattle.ix_rec.specs.declared.device.DeviceRec.{DeviceRec};
ghost use Rattle.ix_rec.specs.declared.phys.Phys.{Phys as PhysSeen};
ghost use Rattle.ix_legal.specs.Legal.{Asks, order};
ghost use Rattle.ix_legal.specs.Spots.{Tells};
ghost use Rattle.ix_rules.specs.declared.fault.Fault.TheVariants.{Memory as NoMemory};
ghost use Rattle.ix_rules.specs.Stages.{IsVerdict, KeepsUpTo};

use ix_legal::{Level, Spot};
use ix_num::Memory;
use ix_rec::Rule;

/// Why a netlist isn't found legal.
#[derive(Clone, Copy)]
pub(crate) enum Fault {
    /// The least rule that it breaks, and the first place of the walk at which it does.
    Broken(Rule, Spot),
    /// Want of memory.
    Memory,
}

impl From<Memory> for Fault {
    ghost from_gives = { λ _ result. result ≡ NoMemory };

    fn from(_memory: Memory) -> Fault {
        Fault::Memory
    }
}

/// What follows from the first place at which a netlist breaks a rule, or from none, where it keeps
/// the rules before.
pub(crate) fn told(rule: Rule, spot: Option<Spot>) -> Result<(), Fault>
    ensures { (level : Level) (names : List Text) (rec : DeviceRec) (phys : PhysSeen)
        → KeepsUpTo level names rec phys (order rule - 1)
        → Tells (Asks level names rec phys rule) spot
        → IsVerdict level names rec phys (order rule) result }
{
    match spot {
        None => Ok(()),
        Some(spot) => Err(Fault::Broken(rule, spot)),
    }
}
