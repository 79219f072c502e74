//! The nets and the pins of a flat design.

ghost use Rattle.std.specs.Prelude.{IfOk};
ghost use Rattle.ix_joined.specs.Joining.{Known};
ghost use Rattle.ix_flat_nets.specs.Nets.{AreFlatNets, IsReady};

use ix_flat_lists::{Named, PortNames};
use ix_flat_pins::flat_pins;
use ix_joined::{Joined, NetState, TopBit};
use ix_num::Memory;
use ix_pin_laws::{designs_are_small, pins_are_apart, port_cells_are_counted};
use ix_rec::{Constants, NetlistRec};
use ix_wiring::{Wiring, wired};
use std::alloc::Global;

/// The signal nets of a flat design, each with its name and its driver, and the net of each pin of
/// a cell that is on one, where the cells and the signal nets are these. The design keeps the rules
/// N1, N2, N9, N10, N8, N5, N3 and N4.
///
/// # Errors
///
/// `Memory` alone.
pub fn flat_nets(
    alloc: Global,
    rec: &NetlistRec,
    constants: &Option<Constants>,
    types: &PortNames,
    joined: &Joined,
    bits: &[TopBit],
    states: &[NetState],
    named: &Named,
) -> Result<Wiring, Memory>
    requires ready { (known : Known) × IsReady known rec.now joined.now constants.now types.now
        bits.now states.now named.now }
    ensures { IfOk result (λ wiring. (known : Known)
        → (ready : IsReady known rec.now joined.now constants.now types.now bits.now states.now
        named.now)
        → AreFlatNets known rec.now ready.named_is.leaves ready.named_is.nets named.now.ports
        wiring) }
{
    port_cells_are_counted();
    pins_are_apart();
    designs_are_small();
    let pins = flat_pins(
        alloc,
        rec,
        constants,
        types,
        joined,
        bits,
        states,
        named.ports,
        &named.leaves,
        &named.signals,
    )?;
    wired(alloc, &named.net_names, &pins)
}
