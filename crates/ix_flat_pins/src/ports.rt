//! The pins of port cells.

ghost use Rattle.std.specs.Prelude.{◌≡◌, ◌<◌, ◌^◌, ℕ, length, slice_get, Some, OnOk, count_by};
ghost use Rattle.ix_hierarchy.specs.Pins.{TopPin};
ghost use Rattle.ix_joined.specs.Joining.{ArePlaces, AreTopBits, Known, IsBitOf, TopPlace};
ghost use Rattle.ix_joined.specs.Joining.{top_places};
ghost use Rattle.ix_flat_lists.specs.Listed.{ArePortNames};
ghost use Rattle.ix_flat_pins.specs.Items.{Adds, IsJust, IsPinOfPort, IsReady, Parts, is_typed};

use crate::leaves::put;
use crate::nets::{is_driver, net_ref};
use ix_flat_lists::PortNames;
use ix_joined::{Joined, NetState, TopBit, role_of_bit};
use ix_num::Memory;
use ix_rec::{Constants, NetlistRec};
use ix_wiring::FlatPin;

// Puts the pin of a port cell.
fn put_port(
    items: &mut Vec<FlatPin>,
    rec: &NetlistRec,
    constants: &Option<Constants>,
    joined: &Joined,
    types: &PortNames,
    states: &[NetState],
    numbers: &[u32],
    cell: u32,
    bit: &TopBit,
) -> Result<(), Memory>
    requires { (known : Known) × (parts : Parts) × (at : TopPlace)
        × IsReady known rec.now joined.now constants.now states.now numbers.now parts
        × IsBitOf rec.now joined.now.instances.items known.paths joined.now.firsts.items at
        bit.now }
    ensures { OnOk result ((known : Known) (parts : Parts) (at : TopPlace) (k : ℕ)
        → IsReady known rec.now joined.now constants.now states.now numbers.now parts
        → ArePortNames known.names types.now
        → slice_get (top_places rec.now) k ≡ Some at
        → ArePlaces rec.now (top_places rec.now)
        → IsBitOf rec.now joined.now.instances.items known.paths joined.now.firsts.items at bit.now
        → Adds known rec.now parts (IsJust (TopPin at.place at.index) cell)
        items.old.items items.new.items) }
{
    let Some(net) = bit.net else {
        return Ok(());
    };
    put(
        items,
        cell,
        types.pin,
        net_ref(states, numbers, net),
        is_driver(role_of_bit(bit.dir)),
    )
}

/// Puts the pins of port cells, in the order of the bits that have a cell.
pub(crate) fn put_ports(
    items: &mut Vec<FlatPin>,
    rec: &NetlistRec,
    constants: &Option<Constants>,
    joined: &Joined,
    types: &PortNames,
    states: &[NetState],
    numbers: &[u32],
    bits: &[TopBit],
) -> Result<(), Memory>
    requires bits { (known : Known) × (parts : Parts)
        × IsReady known rec.now joined.now constants.now states.now numbers.now parts
        × AreTopBits rec.now joined.now.instances.items known.paths joined.now.firsts.items
        bits.now }
    requires few { length bits.now < 2 ^ 32 }
    ensures { OnOk result ((known : Known) (parts : Parts)
        → IsReady known rec.now joined.now constants.now states.now numbers.now parts
        → AreTopBits rec.now joined.now.instances.items known.paths joined.now.firsts.items bits.now
        → ArePortNames known.names types.now
        → Adds known rec.now parts (IsPinOfPort rec.now types.now bits.now (length bits.now))
        items.old.items items.new.items) }
{
    let mut cell = 0;
    for k in 0..bits.len() {
        if types.of(bits[k].dir).is_some() {
            put_port(
                items, rec, constants, joined, types, states, numbers, cell, &bits[k],
            )?;
            cell += 1;
        }
    }
    Ok(())
}
