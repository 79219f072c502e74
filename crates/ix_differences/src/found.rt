//! The first difference.

ghost use Rattle.ix_differences.specs.Found.{IsVerdict};
ghost use Rattle.ix_differences.specs.Numbers.{IsReady};

use crate::cells::{first_cell, first_table};
use crate::earliest::PinName;
use crate::pins::first_pin;
use crate::side::Side;
use ix_num::NameId;
use ix_strings::Names;

/// A difference of two designs.
#[derive(Clone, Copy)]
pub(crate) enum Difference {
    /// In a cell, its type or its site.
    AtCell(NameId),
    /// In the net of a pin.
    AtPin(PinName),
    /// In the truth table of a cell.
    AtTable(NameId),
}

/// The first difference of two designs: of cells, then of pins, then of truth tables.
pub(crate) fn first_found(names: &Names, a: &Side<'_>, b: &Side<'_>) -> Option<Difference>
    requires a { IsReady names.now a.now.flat.now a.now.numbers.now }
    requires b { IsReady names.now b.now.flat.now b.now.numbers.now }
    ensures { IsVerdict names.now a.now.flat.now b.now.flat.now result }
{
    match first_cell(names, a, b) {
        Some(cell) => Some(Difference::AtCell(cell)),
        None => match first_pin(names, a, b) {
            Some(pin) => Some(Difference::AtPin(pin)),
            None => match first_table(names, a, b) {
                Some(cell) => Some(Difference::AtTable(cell)),
                None => None,
            },
        },
    }
}
