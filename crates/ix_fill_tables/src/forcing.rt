//! The bits of an element's table that a LUT forces.

ghost use Rattle.std.specs.Prelude.{◌≡◌, ◌≢◌, ◌<◌, ◌≤◌, ◌+◌, ◌^◌, ◌↔◌, ◌⊎◌, ℕ, length, nat_eq};
ghost use Rattle.std.specs.Prelude.{slice_index, max};
ghost use Rattle.std.specs.Bool.{Decides};
ghost use Rattle.std.specs.Int.{bit_at};
ghost use Rattle.std.specs.List.{list_any};
ghost use Rattle.ix_lut.specs.Places.{Agrees, Allows};
ghost use Rattle.ix_lut.specs.Shapes.{IsUsableBel, lut_on, held_by};
ghost use Rattle.ix_lut.specs.Tables.{spelled as spelled_by};
ghost use Rattle.ix_fill_tables.specs.Bits.{AgreesAt, AreForcedBelow, AreForcedBits, clashes};

use ix_lut::{BelShape, Tie};

/// Bits of an element's table that are forced: those to 1, and those to 0.
#[derive(Clone, Copy)]
pub(crate) struct ForcedBits {
    pub ones: u64,
    pub zeros: u64,
}

impl ForcedBits {
    /// None.
    pub fn none() -> ForcedBits
        ensures ones { result.ones ≡ 0 }
        ensures zeros { result.zeros ≡ 0 }
    {
        ForcedBits { ones: 0, zeros: 0 }
    }

    /// These and others.
    pub fn and(self, other: ForcedBits) -> ForcedBits
        ensures ones { (at : ℕ) → bit_at result.ones at
            ≡ max (bit_at self.ones at) (bit_at other.ones at) }
        ensures zeros { (at : ℕ) → bit_at result.zeros at
            ≡ max (bit_at self.zeros at) (bit_at other.zeros at) }
    {
        ForcedBits {
            ones: self.ones | other.ones,
            zeros: self.zeros | other.zeros,
        }
    }
}

/// Whether a bit is forced both ways.
pub(crate) fn is_clash(forced: ForcedBits) -> bool
    ensures { result ≡ clashes forced }
{
    forced.ones & forced.zeros != 0
}

/// Whether a place is one of these.
pub(crate) fn is_used(used: &[u32], place: u32) -> bool
    ensures { result ≡ list_any (nat_eq place) used.now }
{
    used.iter().any(|p| place == *p)
}

// Whether a wire that is so held may have this value.
fn allows(tie: Tie, value: u32) -> bool
    ensures { Decides result (Allows tie value) }
{
    match tie {
        Tie::Free => true,
        Tie::Vcc => value == 1,
        Tie::Gnd => value == 0,
    }
}

// Whether an input is used, or its value agrees with what holds its line.
fn agrees_at(bel: &BelShape, used: &[u32], ties: &[Tie; 12], values: u32, j: u32) -> bool
    requires bel { IsUsableBel 12 bel.now }
    requires input { j < bel.now.inputs }
    ensures { Decides result
        (AgreesAt bel.now.lines used.now (held_by ties.now) values j) }
{
    is_used(used, j) || allows(ties[bel.lines[j as usize] as usize], (values >> j) & 1)
}

// Whether values of a BEL's inputs agree with what holds the lines of those that aren't used.
fn agrees(bel: &BelShape, used: &[u32], ties: &[Tie; 12], values: u32) -> bool
    requires bel { IsUsableBel 12 bel.now }
    requires values { values < 2 ^ bel.now.inputs }
    ensures { Decides result (Agrees (lut_on bel.now used.now) (held_by ties.now) values) }
{
    for j in 0..bel.inputs {
        if !agrees_at(bel, used, ties, values, j) {
            return false;
        }
    }
    true
}

// What the used inputs spell, the first of them least significant.
fn spelled(used: &[u32], values: u32) -> u32
    requires few { length used.now ≤ 6 }
    requires within { (i : ℕ) → i < length used.now → slice_index used.now i < 6 }
    ensures value { result ≡ spelled_by used.now values }
    ensures small { result < 64 }
{
    let mut n = 0;
    for (i, place) in used.iter().enumerate() {
        n += ((values >> *place) & 1) << i;
    }
    n
}

// The word with a bit set.
fn with_bit(word: u64, at: u32) -> u64
    requires { at < 64 }
    ensures here { bit_at result at ≡ 1 }
    ensures others { (other : ℕ) → other ≢ at → bit_at result other ≡ bit_at word other }
{
    word | 1u64 << at
}

// The bits that are forced, with that which is by one value more.
fn with_value(
    forced: ForcedBits,
    bel: &BelShape,
    used: &[u32],
    ties: &[Tie; 12],
    table: u64,
    values: u32,
) -> ForcedBits
    requires bel { IsUsableBel 12 bel.now }
    requires few { length used.now ≤ 6 }
    requires within { (i : ℕ) → i < length used.now → slice_index used.now i < 6 }
    requires values { values < 2 ^ bel.now.inputs }
    requires forced { AreForcedBelow (lut_on bel.now used.now) table (held_by ties.now) values
        forced }
    ensures { AreForcedBelow (lut_on bel.now used.now) table (held_by ties.now) (values + 1)
        result }
{
    if !agrees(bel, used, ties, values) {
        return forced;
    }
    let at = bel.low + values;
    if (table >> spelled(used, values)) & 1 == 1 {
        ForcedBits {
            ones: with_bit(forced.ones, at),
            zeros: forced.zeros,
        }
    } else {
        ForcedBits {
            ones: forced.ones,
            zeros: with_bit(forced.zeros, at),
        }
    }
}

/// The bits that a LUT forces that is placed on a BEL, its inputs at these places of the BEL's, and
/// that has this table, where the BEL's lines are so held.
pub(crate) fn forced_bits(bel: &BelShape, used: &[u32], ties: &[Tie; 12], table: u64) -> ForcedBits
    requires bel { IsUsableBel 12 bel.now }
    requires few { length used.now ≤ 6 }
    requires within { (i : ℕ) → i < length used.now → slice_index used.now i < 6 }
    ensures { AreForcedBits (lut_on bel.now used.now) table (held_by ties.now) result }
{
    let mut forced = ForcedBits::none();
    for values in 0..1u32 << bel.inputs {
        forced = with_value(forced, bel, used, ties, table, values);
    }
    forced
}

#[cfg(test)]
mod tests {
    use super::*;

    #[test]
    fn a_small_lut(rt: HostRuntime) {
        let bel = BelShape {
            low: 0,
            inputs: 2,
            lines: [0, 1, 0, 0, 0, 0],
        };
        let bits = forced_bits(&bel, &[1, 0], &[Tie::Free; 12], 4);
        assert_eq!(rt; bits.ones, 2);
        assert_eq!(rt; bits.zeros, 13);
    }
}
