//! The cells and the signal nets of a design, with their names.

ghost use Rattle.std.specs.Prelude.{◌≡◌, ◌+◌, ◌-◌, ◌<◌, ◌≤◌, ◌^◌, ℕ, List, length, IfOk};
ghost use Rattle.ix_strings.specs.Names.{KeepsNumbers};
ghost use Rattle.ix_hierarchy.specs.declared.instance.Instance.{Instance};
ghost use Rattle.ix_hierarchy.specs.Fits.{NetlistFits};
ghost use Rattle.ix_hierarchy.specs.Hierarchy.{Path};
ghost use Rattle.ix_joined.specs.Joining.{AreTopBits, IsJoined, Known};
ghost use Rattle.ix_joined.specs.States.{AreNetStates};
ghost use Rattle.ix_flat_lists.specs.Listed.{ArePortNames};
ghost use Rattle.ix_flat_lists.specs.Naming.{IsNamed};

use ix_flat_lists::{Named, PortNames};
use ix_flat_names::signals_of;
use ix_joined::{Joined, NetState, TopBit};
use ix_leaf_cells::put_leaves;
use ix_names_grow::names_grow;
use ix_net_names::put_net_names;
use ix_num::Memory;
use ix_port_cells::put_port_cells;
use ix_rec::NetlistRec;
use ix_strings::Names;
use std::alloc::Global;

/// The cells and the signal nets of a design. Their names are added.
///
/// # Errors
///
/// `Memory` alone.
pub fn add_names(
    alloc: Global,
    rec: &NetlistRec,
    names: &mut Names,
    left: &mut u32,
    types: &PortNames,
    joined: &Joined,
    bits: &[TopBit],
    states: &[NetState],
) -> Result<Named, Memory>
    requires few { length names.old + left.old < 2 ^ 32 - 1 }
    requires fits { NetlistFits (length names.old) rec.now }
    requires types { ArePortNames names.old types.now }
    requires bits { (all : List Instance) × (paths : List Path) × (firsts : List ℕ)
        × AreTopBits rec.now all paths firsts bits.now }
    requires joined { (known : Known) × IsJoined known rec.now joined.now
        × (length known.names ≤ length names.old)
        × AreNetStates known rec.now joined.now states.now }
    requires many { length states.now ≡ length joined.now.firsts.items }
    ensures named { (known : Known) → known.names ≡ names.new → IsJoined known rec.now joined.now
        → AreNetStates known rec.now joined.now states.now
        → IfOk result (IsNamed known rec.now joined.now) }
    ensures keeps { KeepsNumbers names.old names.new }
    ensures counted { length names.new + left.new ≤ length names.old + left.old }
{
    names_grow();
    let mut cells = Vec::new(alloc);
    put_port_cells(alloc, rec, names, left, types, bits, &mut cells)?;
    let ports = cells.len() as u32;
    let leaves = put_leaves(alloc, rec, names, left, joined, &mut cells)?;
    let signals = signals_of(alloc, &joined.firsts, states)?;
    let net_names = put_net_names(alloc, rec, names, left, joined, &signals)?;
    Ok(Named {
        cells,
        ports,
        leaves,
        signals,
        net_names,
    })
}
