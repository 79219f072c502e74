//! The instances and nets of a netlist, where N1, N2, N9 and N10 are kept.

ghost use Rattle.std.specs.Prelude.{◌+◌, ◌-◌, ◌<◌, ◌≤◌, ◌^◌, length, IfErr, IfOk};
ghost use Rattle.ix_strings.specs.Names.{KeepsNumbers};
ghost use Rattle.ix_hierarchy.specs.Fits.{NetlistFits};
ghost use Rattle.ix_join.specs.Asked.{AreAllJoined};
ghost use Rattle.ix_asked.specs.Faults.{IsDesignFault};

use crate::asking::{Known, ask};
use crate::fault::DesignFault;
use ix_join::join_all;
use ix_joined::{Joined, TopBit};
use ix_rec::{DeviceRec, NetlistRec};
use ix_strings::Names;
use std::alloc::Global;

/// The instances and nets of a netlist that keeps N1, N2, N9 and N10, and the bits of its top. The
/// written names of bits of buses become names.
///
/// # Errors
///
/// `Broken` with the first of these rules that is broken and the name that is told; else `Memory`.
pub fn join(
    alloc: Global,
    rec: &NetlistRec,
    device: &DeviceRec,
    names: &mut Names,
    left: &mut u32,
) -> Result<(Joined, Vec<TopBit>), DesignFault>
    requires fits { NetlistFits (length names.old) rec.now }
    requires room { length names.old + left.old < 2 ^ 32 - 1 }
    ensures joined { IfOk result (λ pair. AreAllJoined names.new device.now rec.now pair.0
        pair.1.items) }
    ensures broken { IfErr result (IsDesignFault names.new device.now rec.now) }
    ensures keeps { KeepsNumbers names.old names.new }
    ensures counted { length names.new + left.new ≤ length names.old + left.old }
{
    let Known {
        kinds,
        own,
        outer,
        written,
    } = ask(alloc, rec, device, names, left)?;
    match join_all(alloc, rec, kinds, &own, outer, written) {
        Ok(pair) => Ok(pair),
        Err(_) => Err(DesignFault::Memory),
    }
}
