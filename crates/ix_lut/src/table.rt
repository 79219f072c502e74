//! Truth tables.

ghost use Rattle.std.specs.Prelude.{◌≡◌, ℕ, ◌+◌, ◌*◌, ◌^◌, ◌<◌, ◌≤◌, length, take, slice_index};
ghost use Rattle.std.specs.Int.{bit_at};
ghost use Rattle.ix_lut.specs.Tables.{IsTable, ArePlaces, spelled};

/// A truth table: bit `n` of `bits` is the output where the inputs spell `n`, input 0 least
/// significant. A table of `k` inputs has no bit from `2^k` on.
#[derive(Clone, Copy, PartialEq, Eq)]
pub struct Table {
    /// The bits.
    pub bits: u64,
    /// The number of inputs, at most 6.
    pub inputs: u32,
}

/// What the inputs at `places` spell where all inputs have the values `v`.
pub(crate) fn spelled_at(places: &[u32], v: u32) -> u32
    requires few { length places.now ≤ 6 }
    requires within { (i : ℕ) → i < length places.now → slice_index places.now i < 6 }
    ensures value { result ≡ spelled places.now v }
    ensures small { result < 2 ^ length places.now }
{
    let mut n = 0;
    for (i, place) in places.iter().enumerate() {
        n += ((v >> *place) & 1) << i;
    }
    n
}

/// Where `spells` has what inputs spell for the first `half` values, adds it for as many more, in
/// which a further input is 1 that adds `more`.
fn double(spells: &mut [u32; 64], half: u32, more: u32)
    requires half { half ≤ 32 }
    requires small { (v : ℕ) → v < half → slice_index spells.old v < 64 }
    requires more { more < 64 }
    ensures kept { (v : ℕ) → v < half → slice_index spells.new v ≡ slice_index spells.old v }
    ensures added { (v : ℕ) → v < half →
        slice_index spells.new (half + v) ≡ slice_index spells.old v + more }
    ensures long { length spells.new ≡ 64 }
{
    for v in 0..half {
        spells[(half + v) as usize] = spells[v as usize] + more;
    }
}

/// What the inputs at `places` spell for each value of `inputs` inputs.
fn spellings(places: &[u32], inputs: u32) -> [u32; 64]
    requires few { length places.now ≤ 6 }
    requires small { inputs ≤ 6 }
    requires within { (i : ℕ) → i < length places.now → slice_index places.now i < 6 }
    ensures spelled { (v : ℕ) → v < 2 ^ inputs → slice_index result v ≡ spelled places.now v }
    ensures long { length result ≡ 64 }
{
    let mut spells = [0; 64];
    for j in 0..inputs {
        double(&mut spells, 1 << j, spelled_at(places, 1 << j));
    }
    spells
}

/// The table over `inputs` inputs that reads its inputs at `places` as `bits` reads its own.
pub(crate) fn spread(bits: u64, places: &[u32], inputs: u32) -> u64
    requires few { length places.now ≤ 6 }
    requires small { inputs ≤ 6 }
    requires within { (i : ℕ) → i < length places.now → slice_index places.now i < 6 }
    ensures table { IsTable inputs result }
    ensures values { (v : ℕ) → v < 2 ^ inputs →
        bit_at result v ≡ bit_at bits (spelled places.now v) }
{
    let spells = spellings(places, inputs);
    let mut word = 0;
    for v in 0..1u32 << inputs {
        word += ((bits >> spells[v as usize]) & 1) << v;
    }
    word
}

/// The table whose input `to[i]` is input `i` of `table`; past the table's inputs `to` is not
/// looked at.
pub fn permute(table: Table, to: [u32; 6]) -> Table
    requires table { IsTable table.inputs table.bits }
    requires few { table.inputs ≤ 6 }
    requires permutes { ArePlaces table.inputs (take table.inputs to) }
    ensures inputs { result.inputs ≡ table.inputs }
    ensures table { IsTable table.inputs result.bits }
    ensures values { (v : ℕ) → v < 2 ^ table.inputs →
        bit_at result.bits v ≡ bit_at table.bits (spelled (take table.inputs to) v) }
{
    let bits = spread(table.bits, &to[..table.inputs as usize], table.inputs);
    Table {
        bits,
        inputs: table.inputs,
    }
}
