//! The first cell that breaks the rule N2.

ghost use Rattle.std.specs.Prelude.{◌≡◌, ◌<◌, ◌≤◌, List, length, IfOk, MatchOption};
ghost use Rattle.ix_message.specs.Shape.{Text};
ghost use Rattle.ix_rec.specs.declared.netlist.Cell.{Cell as CellSeen};
ghost use Rattle.ix_rec.specs.declared.netlist.NetlistRec.{NetlistRec as NetlistSeen};
ghost use Rattle.ix_hierarchy.specs.Fits.{NetlistFits};
ghost use Rattle.ix_hierarchy.specs.Lists.{AreFirstCells, AreMet, AreWritten, IsOwnRow, IsOuterRow};
ghost use Rattle.ix_bit_rows.specs.Table.{AreRowsIn};
ghost use Rattle.ix_twice.specs.Facts.{AreRowsOfCell};
ghost use Rattle.ix_twice.specs.Repeats.{IsLeast};
ghost use Rattle.ix_twice.specs.Turns.{IsTwice, IsFirstTwice, NoneTwice};
ghost use Rattle.ix_twice.specs.Twice.{IsFirstBroken, NoneBroken};

use crate::entries::first_written_twice;
use crate::repeats::{first_on_two, least};
use ix_bit_rows::Rows;
use ix_num::{Memory, NameId};
use ix_rec::NetlistRec;
use ix_strings::Names;
use std::alloc::Global;

// The first net of a cell with a port bit that an earlier net names, or with the second bit of an
// instance of one written name.
fn first_in_cell(
    alloc: Global,
    own: &Rows,
    outer: &Rows,
    written: &[NameId],
    cell: u32,
) -> Result<Option<u32>, Memory>
    requires own { cell < length own.now.starts }
    requires outer { cell < length outer.now.starts }
    requires written { length written.now ≡ length outer.now.rows }
    ensures { IfOk result (λ found. (names : List Text) (design : NetlistSeen) (its : CellSeen)
        → AreRowsOfCell names design its own.now outer.now written.now cell
        → IsLeast (IsTwice names design its) found) }
{
    let on_two = least(first_on_two(own, cell), first_on_two(outer, cell));
    let twice = first_written_twice(alloc, outer, written, cell)?;
    Ok(least(on_two, twice))
}

// The first cell, in the order of these declarations, that breaks the rule, and its first net that
// does.
fn first_of_cells(
    alloc: Global,
    rec: &NetlistRec,
    names: &Names,
    cells: &[Option<u32>],
    met: &[u32],
    own: &Rows,
    outer: &Rows,
    written: &[NameId],
) -> Result<Option<(u32, u32)>, Memory>
    requires fits { NetlistFits (length names.now) rec.now }
    requires cells { AreFirstCells rec.now cells.now }
    requires met { AreMet rec.now met.now }
    requires own { AreRowsIn rec.now IsOwnRow own.now }
    requires outer { AreRowsIn rec.now IsOuterRow outer.now }
    requires written { AreWritten names.now rec.now outer.now.rows written.now }
    ensures { IfOk result (λ found. MatchOption found
        (NoneTwice names.now rec.now met.now (length met.now))
        (λ at. IsFirstTwice names.now rec.now met.now at.0 at.1)) }
{
    // No two names are alike, which the table says where it is asked.
    let _count = names.len();
    for declaration in met {
        if let Some(cell) = cells[*declaration as usize] {
            if let Some(net) = first_in_cell(alloc, own, outer, written, cell)? {
                return Ok(Some((cell, net)));
            }
        }
    }
    Ok(None)
}

/// The first net in the walk of which a port bit is on an earlier net of its cell too, or is the
/// second bit of an instance with one written name: its cell, by its place in the netlist's list,
/// and its place there. None exactly where there is no such net. `met` has the declarations in the
/// order in which the walk meets them. `Memory` is the only error.
pub fn first_twice(
    alloc: Global,
    rec: &NetlistRec,
    names: &Names,
    cells: &[Option<u32>],
    met: &[u32],
    own: &Rows,
    outer: &Rows,
    written: &[NameId],
) -> Result<Option<(u32, u32)>, Memory>
    requires fits { NetlistFits (length names.now) rec.now }
    requires cells { AreFirstCells rec.now cells.now }
    requires met { AreMet rec.now met.now }
    requires own { AreRowsIn rec.now IsOwnRow own.now }
    requires outer { AreRowsIn rec.now IsOuterRow outer.now }
    requires written { AreWritten names.now rec.now outer.now.rows written.now }
    ensures { IfOk result (λ found. MatchOption found (NoneBroken names.now rec.now)
        (λ at. IsFirstBroken names.now rec.now at.0 at.1)) }
{
    first_of_cells(alloc, rec, names, cells, met, own, outer, written)
}
