//! A design in lists: its instances, its nets, its flat names.

ghost use Rattle.std.specs.Prelude.{◌+◌, ◌-◌, ◌^◌, ◌<◌, ◌≤◌, length, IfErr, IfOk};
ghost use Rattle.ix_strings.specs.Names.{KeepsNumbers};
ghost use Rattle.ix_hierarchy.specs.Fits.{NetlistFits};
ghost use Rattle.ix_asked.specs.Faults.{IsDesignFault};
ghost use Rattle.ix_flatten.specs.Stages.{AreListed};

use ix_all_names::add_names;
use ix_asked::{DesignFault, join};
use ix_flat_lists::{Named, PortNames};
use ix_flat_names::port_names;
use ix_joined::{Joined, NetState, TopBit};
use ix_names_grow::names_grow;
use ix_net_states::net_states;
use ix_rec::{DeviceRec, NetlistRec};
use ix_strings::Names;
use std::alloc::Global;

/// What is known of a design once it is listed.
#[derive(Drop)]
pub struct Listed {
    /// Its instances and nets.
    pub joined: Joined,
    /// The bits of its top.
    pub bits: Vec<TopBit>,
    /// What is on each net, by its first occurrence.
    pub states: Vec<NetState>,
    /// The names that port cells have.
    pub types: PortNames,
    /// The cells and the signal nets.
    pub named: Named,
}

/// Lists a design that keeps N1, N2, N9 and N10. Its flat names become names.
///
/// # Errors
///
/// `Broken` with the first of these rules that is broken and the name that is told; else `Memory`.
pub(crate) fn list(
    alloc: Global,
    rec: &NetlistRec,
    device: &DeviceRec,
    names: &mut Names,
    left: &mut u32,
) -> Result<Listed, DesignFault>
    requires fits { NetlistFits (length names.old) rec.now }
    requires few { length names.old + left.old < 2 ^ 32 - 1 }
    ensures listed { IfOk result (AreListed names.new device.now rec.now) }
    ensures broken { IfErr result (IsDesignFault names.new device.now rec.now) }
    ensures keeps { KeepsNumbers names.old names.new }
    ensures counted { length names.new + left.new ≤ length names.old + left.old }
{
    names_grow();
    let (joined, bits) = join(alloc, rec, device, names, left)?;
    let states = net_states(alloc, rec, &device.constants, &joined, &bits)?;
    let types = port_names(names, left)?;
    let named = add_names(alloc, rec, names, left, &types, &joined, &bits, &states)?;
    // That no two names are alike is what the table tells with their number.
    let _count = names.len();
    Ok(Listed {
        joined,
        bits,
        states,
        types,
        named,
    })
}
