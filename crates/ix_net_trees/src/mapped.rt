//! The BEL pins on which cells have pins.

ghost use Rattle.std.specs.Prelude.{IfOk, OnOk};
ghost use Rattle.ix_net_trees.specs.Mapped.{AreMapped, AddsPins};

use ix_keys::{Key, Keys};
use ix_num::Memory;
use ix_rec::{CellPlacement, Phys};
use std::alloc::Global;

// Adds the BEL pins that a cell's pin map names.
fn add_pins(placement: &CellPlacement, keys: &mut Keys) -> Result<(), Memory>
    ensures { OnOk result (AddsPins placement.now keys.old keys.new) }
{
    for k in 0..placement.pin_map.len() {
        let entry = placement.pin_map.at(k);
        keys.add(Key::new(placement.site.get(), entry.bel.get(), entry.bel_pin.get()))?;
    }
    Ok(())
}

/// The BEL pins that the pin maps of a netlist's cells name, by site, BEL and pin. It takes time
/// and memory by the entries of the maps.
pub(crate) fn mapped_pins(alloc: Global, phys: &Phys) -> Result<Keys, Memory>
    ensures { IfOk result (AreMapped phys.now) }
{
    let mut keys = Keys::new(alloc);
    for i in 0..phys.placements.len() {
        add_pins(phys.placements.at(i), &mut keys)?;
    }
    Ok(keys)
}
