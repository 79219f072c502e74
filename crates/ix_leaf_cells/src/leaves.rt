//! Leaves that are cells.

ghost use Rattle.std.specs.Prelude.{◌≡◌, ◌<◌, ◌≤◌, ◌+◌, ◌++◌, ◌-◌};
ghost use Rattle.std.specs.Prelude.{◌^◌, [], ℕ, List, Some, length, map};
ghost use Rattle.std.specs.Prelude.{IfOk, OnOk, slice_get};
ghost use Rattle.ix_message.specs.Shape.{Text};
ghost use Rattle.ix_strings.specs.Names.{KeepsNumbers};
ghost use Rattle.ix_hierarchy.specs.Fits.{NetlistFits};
ghost use Rattle.ix_hierarchy.specs.Hierarchy.{Path};
ghost use Rattle.ix_hierarchy.specs.FlatDesign.{LeafCell, leaf_texts};
ghost use Rattle.ix_joined.specs.Joining.{Known, IsJoined};
ghost use Rattle.ix_flat_lists.specs.Listed.{AreLeaves};
ghost use Rattle.ix_port_cells.specs.CellTexts.{AreCells};
ghost use Rattle.ix_leaf_cells.specs.LeavesTo.{AreTo, IsTypeOf};

use ix_flat_texts::path_text;
use ix_hierarchy::add_name;
use ix_joined::Joined;
use ix_names_grow::names_grow;
use ix_num::{Memory, NameId};
use ix_rec::{FlatCell, NetlistRec};
use ix_strings::Names;
use std::alloc::Global;

// The type of an instance.
fn type_of(rec: &NetlistRec, joined: &Joined, instance: u32) -> NameId
    requires joined { (known : Known) × IsJoined known rec.now joined.now }
    requires there { instance < length joined.now.instances.items }
    ensures { IsTypeOf rec.now joined.now instance result }
{
    let declaration = joined.instances[instance as usize].declaration;
    rec.cell_decls.at(declaration as usize).name
}

// Puts a leaf behind the others, where it is a cell.
fn put_leaf(
    alloc: Global,
    rec: &NetlistRec,
    names: &mut Names,
    left: &mut u32,
    joined: &Joined,
    instance: u32,
    cells: &mut Vec<FlatCell>,
    leaves: &mut Vec<u32>,
) -> Result<(), Memory>
    requires few { length names.old + left.old < 2 ^ 32 - 1 }
    requires fits { NetlistFits (length names.old) rec.now }
    requires joined { (known : Known) × IsJoined known rec.now joined.now }
    requires there { instance < length joined.now.instances.items }
    requires below { 0 < instance }
    ensures leaves { (known : Known) (texts : List (Text × Text))
        → IsJoined known rec.now joined.now
        → AreTo known rec.now names.old texts instance leaves.old.items cells.old.items
        → OnOk result (AreTo known rec.now names.new texts (instance + 1) leaves.new.items
        cells.new.items) }
    ensures keeps { KeepsNumbers names.old names.new }
    ensures counted { length names.new + left.new ≤ length names.old + left.old }
{
    names_grow();
    if joined.is_cell(instance) {
        let text = path_text(alloc, rec, names, &joined.instances, instance)?;
        let name = add_name(names, left, text.as_str())?;
        let ty = type_of(rec, joined, instance);
        cells.push(FlatCell { name, ty })?;
        leaves.push(instance)?;
    }
    Ok(())
}

/// Puts the leaves that are cells behind the port cells, in preorder. Their names are added. Tells
/// the instances, by their numbers.
///
/// # Errors
///
/// `Memory` alone.
pub fn put_leaves(
    alloc: Global,
    rec: &NetlistRec,
    names: &mut Names,
    left: &mut u32,
    joined: &Joined,
    cells: &mut Vec<FlatCell>,
) -> Result<Vec<u32>, Memory>
    requires few { length names.old + left.old < 2 ^ 32 - 1 }
    requires fits { NetlistFits (length names.old) rec.now }
    requires joined { (known : Known) × IsJoined known rec.now joined.now }
    ensures leaves { (known : Known) (texts : List (Text × Text))
        → IsJoined known rec.now joined.now
        → AreCells names.old cells.old.items texts
        → IfOk result (λ leaves. (list : List LeafCell) × AreLeaves known rec.now leaves.items list
        × AreCells names.new cells.new.items (texts ++ map (leaf_texts names.new rec.now) list)) }
    ensures keeps { KeepsNumbers names.old names.new }
    ensures counted { length names.new + left.new ≤ length names.old + left.old }
{
    names_grow();
    let mut leaves = Vec::new(alloc);
    for instance in 1..joined.instances.len() as u32 {
        put_leaf(
            alloc,
            rec,
            names,
            left,
            joined,
            instance,
            cells,
            &mut leaves,
        )?;
    }
    Ok(leaves)
}
