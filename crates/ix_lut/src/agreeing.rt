//! The values of a BEL's inputs that agree with the constants on its lines.

ghost use Rattle.std.specs.Prelude.{◌≡◌, ℕ, ◌+◌, ◌^◌, ◌<◌, ◌≤◌, Contains, length, slice_index};
ghost use Rattle.std.specs.Prelude.{true, false};
ghost use Rattle.std.specs.Int.{bit_at};
ghost use Rattle.ix_lut.specs.Tables.{IsTable};
ghost use Rattle.ix_lut.specs.Places.{Allows, Agrees};
ghost use Rattle.ix_lut.specs.Shapes.{IsUsableBel, lut_on, held_by};

use crate::shape::{BelShape, Tie};

/// For each input of a LUT, the values of its inputs at which that input is 1.
const ONE_AT: [u64; 6] = [
    0xaaaa_aaaa_aaaa_aaaa,
    0xcccc_cccc_cccc_cccc,
    0xf0f0_f0f0_f0f0_f0f0,
    0xff00_ff00_ff00_ff00,
    0xffff_0000_ffff_0000,
    0xffff_ffff_0000_0000,
];

/// The values at which input `j` may be where `tie` holds its line.
pub(crate) fn allowed(tie: Tie, j: u32) -> u64
    requires { j < 6 }
    ensures only { (v : ℕ) → v < 64 → bit_at result v ≡ 1 → Allows tie (bit_at v j) }
    ensures every { (v : ℕ) → v < 64 → Allows tie (bit_at v j) → bit_at result v ≡ 1 }
{
    match tie {
        Tie::Free => u64::MAX,
        Tie::Vcc => ONE_AT[j as usize],
        Tie::Gnd => !ONE_AT[j as usize],
    }
}

/// The inputs at `places`, as a set.
fn used_inputs(places: &[u32]) -> u32
    requires { (i : ℕ) → i < length places.now → slice_index places.now i < 6 }
    ensures only { (j : ℕ) → bit_at result j ≡ 1 → Contains places.now j }
    ensures every { (j : ℕ) → Contains places.now j → bit_at result j ≡ 1 }
{
    let mut used = 0;
    for place in places {
        used |= 1 << *place;
    }
    used
}

/// Whether an input isn't of the set `used`.
fn is_unused(used: u32, input: u32) -> bool
    requires { input < 32 }
    ensures yes { result ≡ true → bit_at used input ≡ 0 }
    ensures no { result ≡ false → bit_at used input ≡ 1 }
{
    (used >> input) & 1 == 0
}

/// The values of all the BEL's inputs that agree with what holds the lines of the inputs that the
/// cell doesn't use; its own inputs are at `places`.
pub(crate) fn agreeing(bel: &BelShape, places: &[u32], held: &[Tie; 12]) -> u64
    requires bel { IsUsableBel 12 bel.now }
    requires places { (i : ℕ) → i < length places.now → slice_index places.now i < 6 }
    ensures table { IsTable bel.now.inputs result }
    ensures only { (v : ℕ) → bit_at result v ≡ 1 →
        Agrees (lut_on bel.now places.now) (held_by held.now) v }
    ensures every { (v : ℕ) → Agrees (lut_on bel.now places.now) (held_by held.now) v →
        bit_at result v ≡ 1 }
{
    let used = used_inputs(places);
    let mut word = u64::MAX >> (64 - (1u32 << bel.inputs));
    for j in 0..bel.inputs {
        if is_unused(used, j) {
            word &= allowed(held[bel.lines[j as usize] as usize], j);
        }
    }
    word
}
