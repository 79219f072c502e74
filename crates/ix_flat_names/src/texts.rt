//! The names of port cells and of nets.

ghost use Rattle.std.specs.Prelude.{◌≡◌, ◌<◌, ◌≤◌, ◌+◌, ◌++◌};
ghost use Rattle.std.specs.Prelude.{◌-◌, ◌^◌, Some, codes, length, slice_get};
ghost use Rattle.std.specs.Prelude.{IfOk, string_bytes};
ghost use Rattle.ix_rec.specs.declared.netlist.Cell.{Cell};
ghost use Rattle.ix_rec.specs.declared.netlist.Net.{Net};
ghost use Rattle.ix_rec.specs.declared.netlist.Port.{Port as PortSeen};
ghost use Rattle.ix_strings.specs.Names.{KeepsNumbers};
ghost use Rattle.ix_hierarchy.specs.Fits.{NetlistFits};
ghost use Rattle.ix_hierarchy.specs.Hierarchy.{written};
ghost use Rattle.ix_hierarchy.specs.Lists.{IsNumber};
ghost use Rattle.ix_hierarchy.specs.Nets.{Occurrence, Occurs, net_text as net_text_seen};
ghost use Rattle.ix_joined.specs.Joining.{Known, IsJoined};
ghost use Rattle.ix_flat_lists.specs.Listed.{ArePortNames};

use ix_flat_lists::PortNames;
use ix_flat_texts::{put_bit, text_in};
use ix_hierarchy::add_name;
use ix_instance_lists::of_net;
use ix_joined::{Joined, TopBit};
use ix_num::Memory;
use ix_rec::NetlistRec;
use ix_strings::Names;
use std::alloc::Global;

/// The names that port cells have, which are added.
///
/// # Errors
///
/// `Memory` alone.
pub fn port_names(names: &mut Names, left: &mut u32) -> Result<PortNames, Memory>
    requires { length names.old + left.old < 2 ^ 32 - 1 }
    ensures names { IfOk result (ArePortNames names.new) }
    ensures keeps { KeepsNumbers names.old names.new }
    ensures counted { length names.new + left.new ≤ length names.old + left.old }
{
    let input = add_name(names, left, "$PORT_IN")?;
    let output = add_name(names, left, "$PORT_OUT")?;
    let pin = add_name(names, left, "P")?;
    Ok(PortNames { input, output, pin })
}

/// The name of the cell of a bit of the top.
///
/// # Errors
///
/// `Memory` alone.
pub fn port_text(
    alloc: Global,
    rec: &NetlistRec,
    names: &Names,
    bit: &TopBit,
) -> Result<String, Memory>
    requires fits { NetlistFits (length names.now) rec.now }
    requires there { bit.now.port < length rec.now.port_list }
    ensures { (port : PortSeen) → slice_get rec.now.port_list bit.now.port ≡ Some port
        → IfOk result (λ text. string_bytes text
        ≡ codes "$port/" ++ written names.now port bit.now.index) }
{
    let mut text = String::from_str(alloc, "$port/")?;
    let port = rec.port_list.at(bit.port as usize);
    put_bit(&mut text, names, port, bit.index)?;
    Ok(text)
}

/// The flat name of a net, by its first occurrence.
///
/// # Errors
///
/// `Memory` alone.
pub fn net_text(
    alloc: Global,
    rec: &NetlistRec,
    names: &Names,
    joined: &Joined,
    net: u32,
) -> Result<String, Memory>
    requires fits { NetlistFits (length names.now) rec.now }
    requires joined { (known : Known) × IsJoined known rec.now joined.now
        × (length known.names ≤ length names.now) }
    requires there { net < length joined.now.firsts.items }
    ensures { (known : Known) (at : Occurrence) (cell : Cell) (of_net : Net)
        → IsJoined known rec.now joined.now
        → IsNumber rec.now joined.now.instances.items known.paths at net
        → Occurs rec.now at cell of_net
        → IfOk result (λ text. string_bytes text
        ≡ net_text_seen names.now rec.now at.path of_net) }
{
    let instance = of_net(&joined.instances, net);
    let name = joined.net_name(rec, instance, net);
    text_in(alloc, rec, names, &joined.instances, instance, name)
}
