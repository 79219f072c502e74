//! The first cell at which two designs differ.

ghost use Rattle.std.specs.Prelude.{◌≡◌, ◌<◌, ℕ, length, slice_get, Some};
ghost use Rattle.ix_differences.specs.Differences.{AgreesOnCell, AgreesOnTable, AllCellsAgree};
ghost use Rattle.ix_differences.specs.Earliest.{AgreesOn, AreNamed, IsEarliest, IsName, IsNameIn};
ghost use Rattle.ix_differences.specs.Earliest.{name_order};
ghost use Rattle.ix_differences.specs.Found.{Any};
ghost use Rattle.ix_differences.specs.Numbers.{IsReady};

use crate::agrees::{Asked, agree};
use crate::earliest::earlier_cell;
use crate::side::Side;
use ix_num::NameId;
use ix_rec::{FlatCell, Items};
use ix_strings::Names;

// The first of the names of these cells at which the two designs differ.
fn first_of(
    names: &Names,
    asked: Asked,
    a: &Side<'_>,
    b: &Side<'_>,
    cells: &Items<FlatCell>,
) -> Option<NameId>
    requires a { IsReady names.now a.now.flat.now a.now.numbers.now }
    requires b { IsReady names.now b.now.flat.now b.now.numbers.now }
    requires named { AreNamed names.now cells.now }
    ensures { IsEarliest (name_order names.now) (IsName names.now)
        (AgreesOn asked a.now.flat.now b.now.flat.now) (IsNameIn cells.now) result }
{
    let mut first = None;
    for i in 0..cells.len() {
        let name = cells.at(i).name;
        if !agree(asked, a, b, name) {
            first = earlier_cell(names, first, Some(name));
        }
    }
    first
}

/// The first cell that only one of the two designs has, or that isn't of one type in both, or not
/// on its site.
pub(crate) fn first_cell(names: &Names, a: &Side<'_>, b: &Side<'_>) -> Option<NameId>
    requires a { IsReady names.now a.now.flat.now a.now.numbers.now }
    requires b { IsReady names.now b.now.flat.now b.now.numbers.now }
    ensures { IsEarliest (name_order names.now) (IsName names.now)
        (AgreesOnCell a.now.flat.now b.now.flat.now) Any result }
{
    let in_a = first_of(names, Asked::Cells, a, b, &a.flat.cells);
    let in_b = first_of(names, Asked::Cells, a, b, &b.flat.cells);
    earlier_cell(names, in_a, in_b)
}

/// The first cell whose truth tables in the two designs aren't alike, where both have the same
/// cells.
pub(crate) fn first_table(names: &Names, a: &Side<'_>, b: &Side<'_>) -> Option<NameId>
    requires a { IsReady names.now a.now.flat.now a.now.numbers.now }
    requires b { IsReady names.now b.now.flat.now b.now.numbers.now }
    requires cells { AllCellsAgree a.now.flat.now b.now.flat.now }
    ensures { IsEarliest (name_order names.now) (IsName names.now)
        (AgreesOnTable a.now.flat.now b.now.flat.now) Any result }
{
    first_of(names, Asked::Tables, a, b, &a.flat.cells)
}
