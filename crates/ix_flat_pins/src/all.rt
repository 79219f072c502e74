//! All pins of a flat design.

ghost use Rattle.std.specs.Prelude.{◌≡◌, ◌≤◌, ◌<◌, ◌+◌, ◌^◌, ◌⊎◌, ℕ, length, IfOk};
ghost use Rattle.ix_joined.specs.Joining.{AreTopBits, Known};
ghost use Rattle.ix_flat_lists.specs.Listed.{AreLeaves, ArePortNames};
ghost use Rattle.ix_flat_pins.specs.Items.{AreItems, IsFlat, IsListed, Parts};

use crate::leaves::put_leaves;
use crate::nets::numbers_of;
use crate::ports::put_ports;
use ix_flat_lists::PortNames;
use ix_joined::{Joined, NetState, TopBit};
use ix_num::Memory;
use ix_rec::{Constants, NetlistRec};
use ix_wiring::FlatPin;
use std::alloc::Global;

/// The pins of a flat design that are on its nets, of port cells first, where so many cells are
/// port cells. `Memory` is the only error.
pub fn flat_pins(
    alloc: Global,
    rec: &NetlistRec,
    constants: &Option<Constants>,
    types: &PortNames,
    joined: &Joined,
    bits: &[TopBit],
    states: &[NetState],
    ports: u32,
    leaves: &[u32],
    signals: &[u32],
) -> Result<Vec<FlatPin>, Memory>
    requires listed { (known : Known) × (parts : Parts)
        × IsListed known rec.now joined.now constants.now states.now signals.now parts
        × AreLeaves known rec.now leaves.now parts.cells
        × AreTopBits rec.now joined.now.instances.items known.paths joined.now.firsts.items
        bits.now }
    requires bits { length bits.now < 2 ^ 32 }
    requires leaves { ports + length leaves.now < 2 ^ 32 }
    requires signals { length signals.now ≤ 2 ^ 32 }
    ensures { IfOk result (λ items. (known : Known) (parts : Parts)
        → IsListed known rec.now joined.now constants.now states.now signals.now parts
        → AreLeaves known rec.now leaves.now parts.cells
        → AreTopBits rec.now joined.now.instances.items known.paths joined.now.firsts.items bits.now
        → ArePortNames known.names types.now
        → AreItems known rec.now parts
        (IsFlat rec.now types.now bits.now parts.cells ports (length leaves.now)) items.items) }
{
    let numbers = numbers_of(alloc, signals, joined.firsts.len())?;
    let mut items = Vec::new(alloc);
    put_ports(
        &mut items, rec, constants, joined, types, states, &numbers, bits,
    )?;
    put_leaves(
        &mut items, rec, constants, joined, states, &numbers, ports, leaves,
    )?;
    Ok(items)
}
