//! Differences as they are printed.

ghost use Rattle.std.specs.Prelude.{IfOk};
ghost use Rattle.ix_differences.specs.Differences.{IsFirstDifference};
ghost use Rattle.ix_differences.specs.Found.{IsFound, IsInside};
ghost use Rattle.ix_rec.specs.declared.flow.Flat.{Flat as FlatSeen};

use crate::found::Difference;
use ix_num::Memory;
use ix_rec::{Place, Rule, Word};
use ix_strings::Names;
use std::alloc::Global;

/// The rule that isn't kept, and the place by its names. `Memory` is the only error.
pub(crate) fn told(
    alloc: Global,
    names: &Names,
    difference: Difference,
) -> Result<(Rule, Place), Memory>
    requires inside { IsInside names.now difference }
    ensures { (a b : FlatSeen) → IsFound names.now a b difference
        → IfOk result (λ answer. IsFirstDifference names.now a b answer.0 answer.1) }
{
    match difference {
        Difference::AtCell(cell) => {
            let cell = Word::new(alloc, names.name(cell))?;
            Ok((Rule::E1, Place::Cell(cell)))
        }
        Difference::AtPin(at) => {
            let cell = Word::new(alloc, names.name(at.cell))?;
            let pin = Word::new(alloc, names.name(at.pin))?;
            Ok((Rule::E2, Place::Pin(cell, pin)))
        }
        Difference::AtTable(cell) => {
            let cell = Word::new(alloc, names.name(cell))?;
            Ok((Rule::E3, Place::Cell(cell)))
        }
    }
}
