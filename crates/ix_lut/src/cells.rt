//! The cells of an element on their BELs.

ghost use Rattle.std.specs.Prelude.{◌≡◌, ℕ, ◌+◌, ◌<◌, ◌≤◌, Contains};
ghost use Rattle.std.specs.Prelude.{length, take, slice_index, slice_index_or};
ghost use Rattle.std.specs.Prelude.{true, false};
ghost use Rattle.ix_lut.specs.Shapes.{IsUsable, bel_at, input_lines, held_by};
ghost use Rattle.ix_lut.specs.Items.{use_at, item_at, number_in};
ghost use Rattle.ix_lut.specs.Laid.{AreLaid};

use crate::forcing::Lut;
use crate::lay::{lines_of, ready_lut};
use crate::shape::{BelShape, ElementShape, Tie};
use crate::uses::{Item, LutUse};

/// The line of each cell's inputs, and the cells on their BELs.
#[derive(Clone, Copy)]
pub(crate) struct LaidCells {
    pub(crate) choice: [[u32; 6]; 8],
    pub(crate) luts: [Lut; 8],
}

const NO_BEL: BelShape = BelShape {
    low: 0,
    inputs: 0,
    lines: [0; 6],
};

const NO_LUT: Lut = Lut {
    bel: NO_BEL,
    inputs: 0,
    places: [0; 6],
    table: 0,
    word: 0,
};

/// Lays the cells on their BELs, where each item has its line.
pub(crate) fn lay_cells(
    shape: &ElementShape,
    uses: &[LutUse],
    items: &[Item],
    lines: &[u32; 48],
) -> LaidCells
    requires shape { IsUsable shape.now }
    requires uses { length uses.now ≤ 8 }
    requires on_bels { (u : ℕ) → u < length uses.now →
        (use_at uses.now u).bel < shape.now.bel_count }
    requires few { (u : ℕ) → u < length uses.now → (use_at uses.now u).table.inputs ≤ 6 }
    requires here { (u i : ℕ) → u < length uses.now → i < (use_at uses.now u).table.inputs →
        number_in items.now (item_at (use_at uses.now u).nets i) < 48 }
    requires reached { (u i : ℕ) → u < length uses.now → i < (use_at uses.now u).table.inputs →
        Contains (input_lines (bel_at shape.now (use_at uses.now u).bel))
        (slice_index lines.now (number_in items.now (item_at (use_at uses.now u).nets i))) }
    ensures laid { AreLaid shape.now uses.now items.now lines.now
        (length uses.now) result.choice result.luts }
    ensures long { length result.luts ≡ 8 }
{
    let mut choice = [[0; 6]; 8];
    let mut luts = [NO_LUT; 8];
    for u in 0..uses.len() {
        let cell = &uses[u];
        let chosen = lines_of(items, lines, cell);
        choice[u] = chosen;
        luts[u] = ready_lut(&shape.bels[cell.bel as usize], cell, &chosen);
    }
    LaidCells { choice, luts }
}

/// The ties of lines that may be tied; the others are free.
pub(crate) fn shown_ties(tieable: &[bool; 12], held: &[Tie; 12]) -> [Tie; 12]
    ensures shown { (line : ℕ) → slice_index_or tieable.now line false ≡ true →
        held_by result line ≡ held_by held.now line }
    ensures hidden { (line : ℕ) → slice_index_or tieable.now line false ≡ false →
        held_by result line ≡ Tie.Free }
{
    let mut ties = [Tie::Free; 12];
    for line in 0..12 {
        if tieable[line] {
            ties[line] = held[line];
        }
    }
    ties
}
