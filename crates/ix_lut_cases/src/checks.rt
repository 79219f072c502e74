//! Whether what a case gives fulfils the conditions of a call.

ghost use Rattle.std.specs.Prelude.{ℕ, ◌<◌, ◌≤◌, IsTrue, length, slice_index};
ghost use Rattle.ix_lut.specs.Tables.{AllDiffer, ArePlaces, IsTable};
ghost use Rattle.ix_lut.specs.Shapes.{IsUsable, IsUsableBel};
ghost use Rattle.ix_lut.specs.Plans.{AreUses};

use ix_lut::{BelShape, ElementShape, LutUse, Table};

// Whether no number is twice in the list.
fn do_differ(numbers: &[u32]) -> bool
    ensures { IsTrue result → AllDiffer numbers.now }
{
    for i in 0..numbers.len() {
        if numbers[..i].contains(&numbers[i]) {
            return false;
        }
    }
    true
}

// Whether each of the numbers is below the bound.
fn are_below(numbers: &[u32], bound: u32) -> bool
    ensures { IsTrue result → (i : ℕ) → i < length numbers.now →
        slice_index numbers.now i < bound }
{
    for i in 0..numbers.len() {
        if numbers[i] >= bound {
            return false;
        }
    }
    true
}

/// Whether these are different places of so many inputs.
pub(crate) fn are_places(inputs: u32, places: &[u32]) -> bool
    ensures { IsTrue result → ArePlaces inputs places.now }
{
    are_below(places, inputs) && do_differ(places)
}

/// Whether a table of at most six inputs has no bit past them.
pub(crate) fn is_table(table: &Table) -> bool
    ensures few { IsTrue result → table.now.inputs ≤ 6 }
    ensures table { IsTrue result → IsTable table.now.inputs table.now.bits }
{
    if table.inputs > 6 {
        return false;
    }
    let most = u64::MAX >> (64 - (1u32 << table.inputs));
    table.bits <= most
}

fn is_usable_bel(bel: &BelShape, lines: u32) -> bool
    ensures { IsTrue result → IsUsableBel lines bel.now }
{
    if bel.inputs > 6 || u64::from(bel.low) + (1 << bel.inputs) > 64 {
        return false;
    }
    let own = &bel.lines[..bel.inputs as usize];
    are_below(own, lines) && do_differ(own)
}

/// Whether an element is usable.
pub(crate) fn is_usable(shape: &ElementShape) -> bool
    ensures { IsTrue result → IsUsable shape.now }
{
    if shape.lines > 12 || shape.bel_count > 8 {
        return false;
    }
    for place in 0..shape.bel_count as usize {
        if !is_usable_bel(&shape.bels[place], shape.lines) {
            return false;
        }
    }
    true
}

/// Whether the cells are on different BELs of the element in order, each with a table of some
/// inputs.
pub(crate) fn are_uses(shape: &ElementShape, uses: &[LutUse]) -> bool
    ensures { IsTrue result → AreUses shape.now uses.now }
{
    let mut least = 0;
    for u in 0..uses.len() {
        let cell = &uses[u];
        if cell.bel < least || cell.bel >= shape.bel_count {
            return false;
        }
        if cell.table.inputs == 0 || !is_table(&cell.table) {
            return false;
        }
        least = cell.bel + 1;
    }
    true
}
