//! The bits of an element's table that its LUTs force, and the ties under which none is forced both
//! ways.

ghost use Rattle.std.specs.Prelude.{◌≡◌, ◌+◌, ◌^◌, ◌<◌, ◌≤◌, ◌↔◌, IsTrue, IsFalse, IfSome, IfNone};
ghost use Rattle.std.specs.Prelude.{length, take, slice_index, slice_index_or, ◌≢◌, ℕ, true, false};
ghost use Rattle.ix_lut.specs.Shapes.{held_by};
ghost use Rattle.ix_lut.specs.Places.{Held};
ghost use Rattle.ix_lut.specs.Forcing.{AreReady, AreForced, AreApart, HasForced, CanComplete};
ghost use Rattle.ix_lut.specs.Forcing.{IsLeastHeld, Completes, rank};

use crate::agreeing::agreeing;
use crate::shape::{BelShape, Tie};

/// A LUT of an element as its plan is made: its BEL, the place among the BEL's inputs of each of
/// the cell's, the cell's table, and that table over all the BEL's inputs.
#[derive(Clone, Copy)]
pub(crate) struct Lut {
    pub(crate) bel: BelShape,
    pub(crate) inputs: u32,
    pub(crate) places: [u32; 6],
    pub(crate) table: u64,
    pub(crate) word: u64,
}

/// The bits of an element's table that are forced to 0 and to 1.
#[derive(Clone, Copy)]
pub(crate) struct Forced {
    pub(crate) zeros: u64,
    pub(crate) ones: u64,
}

/// The bits that the LUTs force where `held` holds the lines.
pub(crate) fn forced_bits(luts: &[Lut], held: &[Tie; 12]) -> Forced
    requires { AreReady luts.now }
    ensures zeros { HasForced (length luts.now) luts.now (held_by held.now) 0 result.zeros }
    ensures ones { HasForced (length luts.now) luts.now (held_by held.now) 1 result.ones }
{
    let mut zeros = 0;
    let mut ones = 0;
    for lut in luts {
        let read = agreeing(&lut.bel, &lut.places[..lut.inputs as usize], held);
        ones |= (read & lut.word) << lut.bel.low;
        zeros |= (read & !lut.word) << lut.bel.low;
    }
    Forced { zeros, ones }
}

/// Whether no bit is forced both ways.
fn are_apart(luts: &[Lut], held: &[Tie; 12]) -> bool
    requires { AreReady luts.now }
    ensures yes { result ≡ true → AreApart luts.now (held_by held.now) }
    ensures no { result ≡ false → AreApart luts.now (held_by held.now) → ⊥ }
{
    let forced = forced_bits(luts, held);
    forced.zeros & forced.ones == 0
}

/// The first tieable line from `from` on, or 12 where there is none.
fn next_tieable(tieable: &[bool; 12], from: usize) -> usize
    requires { from ≤ 12 }
    ensures after { from ≤ result }
    ensures within { result ≤ 12 }
    ensures first { (line : ℕ) → from ≤ line → line < result →
        slice_index_or tieable.now line false ≡ false }
    ensures is { result < 12 → slice_index_or tieable.now result false ≡ true }
{
    for line in from..12 {
        if tieable[line] {
            return line;
        }
    }
    12
}

/// Whether some ties of the tieable lines from `from` on leave no bit forced both ways. A tie
/// forces fewer bits than a free line, so each such line is tied to vcc or gnd.
fn can_complete(luts: &[Lut], tieable: &[bool; 12], held: [Tie; 12], from: usize) -> bool
    requires ready { AreReady luts.now }
    requires from { from ≤ 12 }
    ensures yes { result ≡ true → CanComplete luts.now tieable.now (held_by held) from }
    ensures no { result ≡ false → CanComplete luts.now tieable.now (held_by held) from → ⊥ }
{
    if are_apart(luts, &held) {
        return true;
    }
    let line = next_tieable(tieable, from);
    if line == 12 {
        return false;
    }
    let mut high = held;
    high[line] = Tie::Vcc;
    if can_complete(luts, tieable, high, line + 1) {
        return true;
    }
    let mut low = held;
    low[line] = Tie::Gnd;
    can_complete(luts, tieable, low, line + 1)
}

/// Gives a tieable line its least tie with which the others can be completed.
fn set_least_tie(luts: &[Lut], tieable: &[bool; 12], held: &mut [Tie; 12], line: usize)
    requires ready { AreReady luts.now }
    requires line { line < 12 }
    requires can { CanComplete luts.now tieable.now (held_by held.old) line }
    requires tieable { slice_index_or tieable.now line false ≡ true }
    ensures kept { (l : ℕ) → l ≢ line → held_by held.new l ≡ held_by held.old l }
    ensures can { CanComplete luts.now tieable.now (held_by held.new) (line + 1) }
    ensures least { (other : Held) → Completes tieable.now (held_by held.old) line other →
        AreApart luts.now other → rank (other line) < rank (held_by held.new line) → ⊥ }
{
    held[line] = Tie::Free;
    if can_complete(luts, tieable, *held, line + 1) {
        return;
    }
    held[line] = Tie::Vcc;
    if can_complete(luts, tieable, *held, line + 1) {
        return;
    }
    held[line] = Tie::Gnd;
}

/// What holds the lines under the least ties of the tieable lines that leave no bit forced both
/// ways; None where no ties do. `held` is what holds the others.
pub(crate) fn least_ties(luts: &[Lut], tieable: &[bool; 12], held: [Tie; 12]) -> Option<[Tie; 12]>
    requires { AreReady luts.now }
    ensures least { IfSome result
        (λ ties. IsLeastHeld luts.now tieable.now (held_by held) (held_by ties)) }
    ensures none { IfNone result (CanComplete luts.now tieable.now (held_by held) 0 → ⊥) }
{
    if !can_complete(luts, tieable, held, 0) {
        return None;
    }
    let mut ties = held;
    for line in 0..12 {
        if tieable[line] {
            set_least_tie(luts, tieable, &mut ties, line);
        }
    }
    Some(ties)
}
