//! The bits of the top's ports.

ghost use Rattle.std.specs.Prelude.{◌≡◌, ◌<◌, ◌++◌, ℕ, List, Some, length, slice_get, IfOk, OnOk};
ghost use Rattle.ix_rec.specs.declared.device.DeviceRec.{DeviceRec};
ghost use Rattle.ix_rec.specs.declared.netlist.Port.{Port as PortSeen};
ghost use Rattle.ix_hierarchy.specs.declared.instance.Instance.{Instance as InstanceSeen};
ghost use Rattle.ix_hierarchy.specs.Hierarchy.{Path, ports_of};
ghost use Rattle.ix_hierarchy.specs.Pins.{IsTopBit, TopPin};
ghost use Rattle.ix_joined.specs.Joining.{AreTopBits, IsFirstNet, TopPlace, bits_at};
ghost use Rattle.ix_top_bits.specs.Given.{AreBitsOf, AreGiven};

use ix_bit_rows::Rows;
use ix_hierarchy::{Kind, width};
use ix_joined::TopBit;
use ix_num::Memory;
use ix_rec::NetlistRec;
use std::alloc::Global;

// The first occurrence of the net that a bit of a port of the top is on. Occurrences of the top's
// own nets are the first ones, so the number of one is its place among the top's nets.
fn top_net(
    rec: &NetlistRec,
    kinds: &[Kind],
    own: &Rows,
    firsts: &[u32],
    port: u32,
    index: u32,
) -> Option<u32>
    requires given { (device : DeviceRec) × (all : List InstanceSeen) × (paths : List Path)
        × AreGiven rec.now device kinds.now own.now all paths firsts.now }
    ensures { (device : DeviceRec) (all : List InstanceSeen) (paths : List Path) (place : ℕ)
        (seen : PortSeen) → AreGiven rec.now device kinds.now own.now all paths firsts.now
        → IsTopBit rec.now place index port seen
        → IsFirstNet rec.now all paths firsts.now (TopPin place index) result }
{
    match kinds[rec.top_inst.cell as usize] {
        Kind::Inside(cell) => match own.net_of(cell, port, index) {
            Some(net) => Some(firsts[net as usize]),
            None => None,
        },
        _ => None,
    }
}

// Puts the bits of a port behind others.
fn put_port(
    rec: &NetlistRec,
    kinds: &[Kind],
    own: &Rows,
    firsts: &[u32],
    port: u32,
    bits: &mut Vec<TopBit>,
) -> Result<(), Memory>
    requires given { (device : DeviceRec) × (all : List InstanceSeen) × (paths : List Path)
        × AreGiven rec.now device kinds.now own.now all paths firsts.now }
    requires there { port < length rec.now.port_list }
    ensures { (device : DeviceRec) (all : List InstanceSeen) (paths : List Path) (place : ℕ)
        (places : List TopPlace) → AreGiven rec.now device kinds.now own.now all paths firsts.now
        → slice_get (ports_of rec.now rec.now.top_inst.cell) place ≡ Some port
        → AreBitsOf rec.now all paths firsts.now places bits.old.items
        → OnOk result (AreBitsOf rec.now all paths firsts.now
        (places ++ bits_at place port (slice_get rec.now.port_list port)) bits.new.items) }
{
    let one = rec.port_list.at(port as usize);
    for index in 0..width(one) {
        let index = index as u32;
        bits.push(TopBit {
            port,
            index,
            dir: one.dir,
            net: top_net(rec, kinds, own, firsts, port, index),
        })?;
    }
    Ok(())
}

/// The bits of the top's ports, in the order of its declaration and by index.
///
/// # Errors
///
/// `Memory` alone.
pub fn top_bits(
    alloc: Global,
    rec: &NetlistRec,
    kinds: &[Kind],
    own: &Rows,
    firsts: &[u32],
) -> Result<Vec<TopBit>, Memory>
    requires given { (device : DeviceRec) × (all : List InstanceSeen) × (paths : List Path)
        × AreGiven rec.now device kinds.now own.now all paths firsts.now }
    ensures { (device : DeviceRec) (all : List InstanceSeen) (paths : List Path)
        → AreGiven rec.now device kinds.now own.now all paths firsts.now
        → IfOk result (λ bits. AreTopBits rec.now all paths firsts.now bits.items) }
{
    let top = rec.cell_decls.at(rec.top_inst.cell as usize);
    let mut bits = Vec::new(alloc);
    for place in 0..top.ports.len() {
        put_port(rec, kinds, own, firsts, *top.ports.at(place), &mut bits)?;
    }
    Ok(bits)
}
