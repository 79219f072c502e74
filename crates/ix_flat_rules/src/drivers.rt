//! N3 and N4.

ghost use Rattle.std.specs.Prelude.{IfErr, OnOk};
ghost use Rattle.ix_hierarchy.specs.Broken.{Keeps3, Keeps4, Keeps5};
ghost use Rattle.ix_joined.specs.Joining.{Known};
ghost use Rattle.ix_asked.specs.Faults.{IsDesignFault};
ghost use Rattle.ix_flat_rules.specs.Givens.{AreNetsKnown};

use crate::nets::broken_at_net;
use ix_asked::DesignFault;
use ix_joined::{Joined, NetState};
use ix_net_states::{first_driven_twice, first_undriven};
use ix_rec::{NetlistRec, Rule};
use ix_strings::Names;
use std::alloc::Global;

/// Asks N3: no net has two drivers.
///
/// # Errors
///
/// `Broken` with the flat name of the first net that has; else `Memory`.
pub fn ask_one_driver(
    alloc: Global,
    rec: &NetlistRec,
    names: &Names,
    joined: &Joined,
    states: &[NetState],
) -> Result<(), DesignFault>
    requires known { (known : Known)
        × AreNetsKnown known names.now rec.now joined.now states.now }
    ensures keeps { (known : Known)
        → AreNetsKnown known names.now rec.now joined.now states.now
        → Keeps5 known.names known.device rec.now
        → OnOk result (Keeps3 known.names known.device rec.now) }
    ensures broken { (known : Known)
        → AreNetsKnown known names.now rec.now joined.now states.now
        → Keeps5 known.names known.device rec.now
        → IfErr result (IsDesignFault known.names known.device rec.now) }
{
    match first_driven_twice(states) {
        Some(net) => Err(broken_at_net(alloc, rec, names, joined, Rule::N3, net)),
        None => Ok(()),
    }
}

/// Asks N4: each net that has a sink has a driver.
///
/// # Errors
///
/// `Broken` with the flat name of the first net that has none; else `Memory`.
pub fn ask_driver(
    alloc: Global,
    rec: &NetlistRec,
    names: &Names,
    joined: &Joined,
    states: &[NetState],
) -> Result<(), DesignFault>
    requires known { (known : Known)
        × AreNetsKnown known names.now rec.now joined.now states.now }
    ensures keeps { (known : Known)
        → AreNetsKnown known names.now rec.now joined.now states.now
        → Keeps3 known.names known.device rec.now
        → OnOk result (Keeps4 known.names known.device rec.now) }
    ensures broken { (known : Known)
        → AreNetsKnown known names.now rec.now joined.now states.now
        → Keeps3 known.names known.device rec.now
        → IfErr result (IsDesignFault known.names known.device rec.now) }
{
    match first_undriven(states) {
        Some(net) => Err(broken_at_net(alloc, rec, names, joined, Rule::N4, net)),
        None => Ok(()),
    }
}
