//! The pins of leaves.

ghost use Rattle.std.specs.Prelude.{◌≡◌, ◌+◌, ◌<◌, ◌≤◌, ◌^◌, ◌++◌, ℕ, length, slice_get, Some};
ghost use Rattle.std.specs.Prelude.{OnOk};
ghost use Rattle.ix_hierarchy.specs.Hierarchy.{Path};
ghost use Rattle.ix_hierarchy.specs.Pins.{IsPlainLeaf, LeafPin as LeafPinAt};
ghost use Rattle.ix_hierarchy.specs.FlatDesign.{LeafCell};
ghost use Rattle.ix_hierarchy.specs.Lists.{bit_in};
ghost use Rattle.ix_rec.specs.declared.netlist.CellInstance.{CellInstance};
ghost use Rattle.ix_joined.specs.Joining.{Known};
ghost use Rattle.ix_pins.specs.Places.{IsPinPlace};
ghost use Rattle.ix_flat_pins.specs.Items.{IsReady, IsJust, IsPinOfLeaf, IsPinOfLeaves, Parts};
ghost use Rattle.ix_flat_pins.specs.Items.{Adds, item_on, listed};
ghost use Rattle.ix_flat_lists.specs.Listed.{AreLeaves};

use crate::nets::{is_driver, net_ref};
use ix_joined::{Joined, NetState};
use ix_num::{CellId, Memory, NameId, NetRef};
use ix_pins::{pin, pins};
use ix_rec::{Constants, NetlistRec};
use ix_wiring::FlatPin;

/// Puts a pin on its net behind the others, where it is on one.
pub(crate) fn put(
    items: &mut Vec<FlatPin>,
    cell: u32,
    name: NameId,
    net: Option<NetRef>,
    drives: bool,
) -> Result<(), Memory>
    ensures { OnOk result (items.new.items
        ≡ items.old.items ++ listed (item_on cell name drives net)) }
{
    if let Some(net) = net {
        items.push(FlatPin {
            cell: CellId::new(cell),
            pin: name,
            net,
            drives,
        })?;
    }
    Ok(())
}

// Puts the pin of a leaf's row.
fn put_leaf_pin(
    items: &mut Vec<FlatPin>,
    rec: &NetlistRec,
    constants: &Option<Constants>,
    joined: &Joined,
    states: &[NetState],
    numbers: &[u32],
    cell: u32,
    instance: u32,
    place: usize,
) -> Result<(), Memory>
    requires { (known : Known) × (parts : Parts)
        × IsReady known rec.now joined.now constants.now states.now numbers.now parts
        × IsPinPlace known rec.now joined.now instance place }
    ensures { OnOk result ((known : Known) (parts : Parts) (inst : CellInstance) (ty : ℕ)
        → IsReady known rec.now joined.now constants.now states.now numbers.now parts
        → (at : IsPinPlace known rec.now joined.now instance place)
        → IsPlainLeaf known.device rec.now at.path inst ty
        → Adds known rec.now parts (IsJust (LeafPinAt at.path (bit_in at.row)) cell)
        items.old.items items.new.items) }
{
    let pin = pin(rec, constants, joined, instance, place);
    put(
        items,
        cell,
        pin.name,
        net_ref(states, numbers, pin.net),
        is_driver(pin.role),
    )
}

// The pins of a leaf.
fn put_leaf(
    items: &mut Vec<FlatPin>,
    rec: &NetlistRec,
    constants: &Option<Constants>,
    joined: &Joined,
    states: &[NetState],
    numbers: &[u32],
    cell: u32,
    instance: u32,
) -> Result<(), Memory>
    requires leaf { (known : Known) × (parts : Parts) × (path : Path) × (inst : CellInstance)
        × (ty : ℕ) × IsReady known rec.now joined.now constants.now states.now numbers.now parts
        × (slice_get known.paths instance ≡ Some path)
        × IsPlainLeaf known.device rec.now path inst ty }
    ensures { OnOk result ((known : Known) (parts : Parts) (path : Path) (inst : CellInstance)
        (ty : ℕ) → IsReady known rec.now joined.now constants.now states.now numbers.now parts
        → slice_get known.paths instance ≡ Some path
        → IsPlainLeaf known.device rec.now path inst ty
        → Adds known rec.now parts (IsPinOfLeaf path cell) items.old.items items.new.items) }
{
    let (start, end) = pins(joined, instance);
    for place in start..end {
        put_leaf_pin(
            items, rec, constants, joined, states, numbers, cell, instance, place,
        )?;
    }
    Ok(())
}

/// The pins of all leaves that are cells.
pub(crate) fn put_leaves(
    items: &mut Vec<FlatPin>,
    rec: &NetlistRec,
    constants: &Option<Constants>,
    joined: &Joined,
    states: &[NetState],
    numbers: &[u32],
    ports: u32,
    leaves: &[u32],
) -> Result<(), Memory>
    requires leaves { (known : Known) × (parts : Parts)
        × IsReady known rec.now joined.now constants.now states.now numbers.now parts
        × AreLeaves known rec.now leaves.now parts.cells }
    requires few { ports + length leaves.now < 2 ^ 32 }
    ensures { OnOk result ((known : Known) (parts : Parts)
        → IsReady known rec.now joined.now constants.now states.now numbers.now parts
        → AreLeaves known rec.now leaves.now parts.cells
        → Adds known rec.now parts (IsPinOfLeaves parts.cells ports (length leaves.now))
        items.old.items items.new.items) }
{
    for k in 0..leaves.len() {
        put_leaf(
            items,
            rec,
            constants,
            joined,
            states,
            numbers,
            ports + k as u32,
            leaves[k],
        )?;
    }
    Ok(())
}
