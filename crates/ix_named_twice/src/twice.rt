//! The first name that two cells, or two signal nets, have.

ghost use Rattle.std.specs.Prelude.{◌≡◌, ◌<◌, ◌≤◌, Some, IfOk, length, slice_get};
ghost use Rattle.ix_rec.specs.declared.netlist.NetlistRec.{NetlistRec};
ghost use Rattle.ix_hierarchy.specs.Walk.{Spot};
ghost use Rattle.ix_joined.specs.Joining.{ArePlaces, IsJoined, Known, top_places};
ghost use Rattle.ix_flat_lists.specs.Naming.{IsNamed};
ghost use Rattle.ix_named_twice.specs.Spots.{FindsSecond, IsEarlier, cell_spots, names_of};
ghost use Rattle.ix_named_twice.specs.Spots.{net_spots};
ghost use Rattle.ix_named_twice.specs.Twice.{TellsTwice};

use ix_flat_lists::Named;
use ix_instance_lists::of_net;
use ix_joined::Joined;
use ix_num::{Memory, NameId};
use ix_rec::FlatCell;
use ix_second_names::first_second;
use std::alloc::Global;

// The names of cells.
fn cell_names(alloc: Global, cells: &[FlatCell]) -> Result<Vec<NameId>, Memory>
    ensures { IfOk result (λ names. names.items ≡ names_of cells.now) }
{
    let mut names = Vec::new(alloc);
    for cell in cells {
        names.push(cell.name)?;
    }
    Ok(names)
}

// Whether a cell stands before a signal net in the walk.
fn is_cell_first(joined: &Joined, named: &Named, cell: u32, net: u32) -> bool
    requires named { (known : Known) × (design : NetlistRec) × IsJoined known design joined.now
        × IsNamed known design joined.now named.now }
    requires cell { cell < length named.now.cells.items }
    requires net { net < length named.now.net_names.items }
    ensures { (known : Known) (design : NetlistRec)
        (is : IsNamed known design joined.now named.now) → IsJoined known design joined.now
        → (one other : Spot) → slice_get (cell_spots design is.leaves) cell ≡ Some one
        → slice_get (net_spots is.nets) net ≡ Some other → IsEarlier result one other }
{
    if cell < named.ports {
        return true;
    }
    let leaf = named.leaves[(cell - named.ports) as usize];
    leaf < of_net(&joined.instances, named.signals[net as usize])
}

// The name of the earlier one of a cell and of a signal net that have the name of an earlier one.
fn earlier(joined: &Joined, named: &Named, cell: Option<u32>, net: Option<u32>) -> Option<NameId>
    requires named { (known : Known) × (design : NetlistRec) × IsJoined known design joined.now
        × IsNamed known design joined.now named.now }
    requires cell { FindsSecond (names_of named.now.cells.items) cell }
    requires net { FindsSecond named.now.net_names.items net }
    ensures { (known : Known) (design : NetlistRec) → IsJoined known design joined.now
        → IsNamed known design joined.now named.now → ArePlaces design (top_places design)
        → TellsTwice known design result }
{
    match (cell, net) {
        (None, None) => None,
        (Some(cell), None) => Some(named.cells[cell as usize].name),
        (None, Some(net)) => Some(named.net_names[net as usize]),
        (Some(cell), Some(net)) => {
            if is_cell_first(joined, named, cell, net) {
                Some(named.cells[cell as usize].name)
            } else {
                Some(named.net_names[net as usize])
            }
        }
    }
}

/// The name that is the second of two among cells, or among signal nets, at the first place of the
/// walk; none exactly where all differ. `count` is the number of names.
///
/// # Errors
///
/// `Memory` alone. It takes a mark a name, and the cells' names.
pub fn first_named_twice(
    alloc: Global,
    joined: &Joined,
    named: &Named,
    count: u32,
) -> Result<Option<NameId>, Memory>
    requires named { (known : Known) × (design : NetlistRec) × IsJoined known design joined.now
        × IsNamed known design joined.now named.now × ArePlaces design (top_places design)
        × (length known.names ≤ count) }
    ensures { (known : Known) (design : NetlistRec) → IsJoined known design joined.now
        → IsNamed known design joined.now named.now → ArePlaces design (top_places design)
        → IfOk result (TellsTwice known design) }
{
    let cells = cell_names(alloc, &named.cells)?;
    let cell = first_second(alloc, &cells, count)?;
    let net = first_second(alloc, &named.net_names, count)?;
    Ok(earlier(joined, named, cell, net))
}
