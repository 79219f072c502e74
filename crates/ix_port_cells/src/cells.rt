//! Port cells.

ghost use Rattle.std.specs.Prelude.{◌≡◌, ◌<◌, ◌≤◌, ◌+◌, ◌++◌, ◌-◌};
ghost use Rattle.std.specs.Prelude.{◌^◌, [], ℕ, List, Some, length, slice_get};
ghost use Rattle.std.specs.Prelude.{OnOk};
ghost use Rattle.ix_message.specs.Shape.{Text};
ghost use Rattle.ix_rec.specs.declared.netlist.Port.{Port as PortSeen};
ghost use Rattle.ix_strings.specs.Names.{KeepsNumbers};
ghost use Rattle.ix_hierarchy.specs.Fits.{NetlistFits};
ghost use Rattle.ix_hierarchy.specs.Hierarchy.{Path};
ghost use Rattle.ix_hierarchy.specs.FlatDesign.{port_cells};
ghost use Rattle.ix_hierarchy.specs.declared.instance.Instance.{Instance};
ghost use Rattle.ix_joined.specs.Joining.{AreTopBits};
ghost use Rattle.ix_flat_lists.specs.Listed.{ArePortNames};
ghost use Rattle.ix_port_cells.specs.CellTexts.{AreCells, port_cell};

use ix_flat_lists::PortNames;
use ix_flat_names::port_text;
use ix_hierarchy::add_name;
use ix_joined::TopBit;
use ix_names_grow::names_grow;
use ix_num::Memory;
use ix_rec::{FlatCell, NetlistRec};
use ix_strings::Names;
use std::alloc::Global;

// Puts the cell of a bit behind the others, where it has one.
fn put_port_cell(
    alloc: Global,
    rec: &NetlistRec,
    names: &mut Names,
    left: &mut u32,
    types: &PortNames,
    bit: &TopBit,
    cells: &mut Vec<FlatCell>,
) -> Result<(), Memory>
    requires few { length names.old + left.old < 2 ^ 32 - 1 }
    requires fits { NetlistFits (length names.old) rec.now }
    requires there { bit.now.port < length rec.now.port_list }
    ensures cells { (texts : List (Text × Text)) (port : PortSeen)
        → ArePortNames names.old types.now
        → slice_get rec.now.port_list bit.now.port ≡ Some port → port.dir ≡ bit.now.dir
        → AreCells names.old cells.old.items texts
        → OnOk result (AreCells names.new cells.new.items
        (texts ++ port_cell names.old port bit.now.index)) }
    ensures keeps { KeepsNumbers names.old names.new }
    ensures counted { length names.new + left.new ≤ length names.old + left.old }
{
    if let Some(ty) = types.of(bit.dir) {
        let text = port_text(alloc, rec, names, bit)?;
        let name = add_name(names, left, text.as_str())?;
        cells.push(FlatCell { name, ty })?;
    }
    Ok(())
}

/// Puts the port cells behind no others, in flat order. Their names are added.
///
/// # Errors
///
/// `Memory` alone.
pub fn put_port_cells(
    alloc: Global,
    rec: &NetlistRec,
    names: &mut Names,
    left: &mut u32,
    types: &PortNames,
    bits: &[TopBit],
    cells: &mut Vec<FlatCell>,
) -> Result<(), Memory>
    requires few { length names.old + left.old < 2 ^ 32 - 1 }
    requires fits { NetlistFits (length names.old) rec.now }
    requires types { ArePortNames names.old types.now }
    requires bits { (all : List Instance) × (paths : List Path) × (firsts : List ℕ)
        × AreTopBits rec.now all paths firsts bits.now }
    requires none { cells.old.items ≡ [] }
    ensures cells { OnOk result (AreCells names.new cells.new.items
        (port_cells names.new rec.now)) }
    ensures keeps { KeepsNumbers names.old names.new }
    ensures counted { length names.new + left.new ≤ length names.old + left.old }
{
    names_grow();
    for k in 0..bits.len() {
        put_port_cell(alloc, rec, names, left, types, &bits[k], cells)?;
    }
    Ok(())
}
