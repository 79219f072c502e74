//! N8.

ghost use Rattle.std.specs.Prelude.{IfErr, OnOk};
ghost use Rattle.ix_hierarchy.specs.Broken.{Keeps10, Keeps8};
ghost use Rattle.ix_joined.specs.Joining.{Known};
ghost use Rattle.ix_asked.specs.Faults.{IsDesignFault};
ghost use Rattle.ix_flat_rules.specs.Givens.{AreBitsKnown};

use crate::nets::broken_at_net;
use ix_asked::DesignFault;
use ix_inout::first_inout;
use ix_joined::{Joined, TopBit};
use ix_rec::{Constants, NetlistRec, Rule};
use ix_strings::Names;
use std::alloc::Global;

/// Asks N8: no bit of the top and no pin of a leaf that goes both ways is on a net.
///
/// # Errors
///
/// `Broken` with the flat name of the net of the first such bit or pin; else `Memory`.
pub fn ask_inout(
    alloc: Global,
    rec: &NetlistRec,
    constants: &Option<Constants>,
    names: &Names,
    joined: &Joined,
    bits: &[TopBit],
) -> Result<(), DesignFault>
    requires known { (known : Known)
        × AreBitsKnown known names.now rec.now constants.now joined.now bits.now }
    ensures keeps { (known : Known)
        → AreBitsKnown known names.now rec.now constants.now joined.now bits.now
        → Keeps10 known.names known.device rec.now
        → OnOk result (Keeps8 known.names known.device rec.now) }
    ensures broken { (known : Known)
        → AreBitsKnown known names.now rec.now constants.now joined.now bits.now
        → Keeps10 known.names known.device rec.now
        → IfErr result (IsDesignFault known.names known.device rec.now) }
{
    match first_inout(rec, constants, joined, bits) {
        Some(net) => Err(broken_at_net(alloc, rec, names, joined, Rule::N8, net)),
        None => Ok(()),
    }
}
