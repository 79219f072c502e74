//! The rules E1 to E3.

ghost use Rattle.std.specs.Prelude.{length, map, IfOk};
ghost use Rattle.ix_flat.specs.Range.{IsNamed, NumbersFit};
ghost use Rattle.ix_flat.specs.Whole.{AllDiffer};
ghost use Rattle.ix_differences.specs.Differences.{IsAnswer};

use crate::found::first_found;
use crate::numbers::numbers_of;
use crate::place::told;
use crate::side::Side;
use ix_num::Memory;
use ix_rec::{Flat, Place, Rule};
use ix_strings::Names;
use std::alloc::Global;

/// How a design `a` that was taken from a physical netlist differs from the flat design `b`: the
/// least of the rules E1, E2 and E3 that isn't kept, with its first place; none exactly where the
/// two agree.
///
/// E1 asks for the same cells by name, of the same types, and that each cell which `b` fixes to a
/// site is on that site in `a`. E2 asks that each pin is on one net in both, or on none in both;
/// signal nets go by their names. E3 asks for the same truth tables. The first place is the least
/// name of a cell in the order of bytes, and of pins the least by the name of the cell and then by
/// that of the pin.
///
/// The designs' numbers are in range, their names are of the table, and in each design the names of
/// cells differ.
///
/// It is linear in cells and tables; of each pin it asks its net in both maps. Texts are compared
/// only where the designs differ. Memory goes by names, 16 bytes each.
///
/// # Errors
///
/// Want of memory.
pub fn first_difference(
    alloc: Global,
    a: &Flat,
    b: &Flat,
    names: &Names,
) -> Result<Option<(Rule, Place)>, Memory>
    requires fits_a { NumbersFit a.now }
    requires fits_b { NumbersFit b.now }
    requires named_a { IsNamed (length names.now) a.now }
    requires named_b { IsNamed (length names.now) b.now }
    requires differ_a { AllDiffer (map (λ cell. cell.name) a.now.cells) }
    requires differ_b { AllDiffer (map (λ cell. cell.name) b.now.cells) }
    ensures { IfOk result (IsAnswer names.now a.now b.now) }
{
    let in_a = numbers_of(alloc, a, names.len())?;
    let in_b = numbers_of(alloc, b, names.len())?;
    let a = Side {
        flat: a,
        numbers: &in_a,
    };
    let b = Side {
        flat: b,
        numbers: &in_b,
    };
    match first_found(names, &a, &b) {
        Some(difference) => Ok(Some(told(alloc, names, difference)?)),
        None => Ok(None),
    }
}
