//! The table in front of a file's segments.

ghost use Rattle.std.specs.Prelude.{◌≡◌, ◌+◌, ◌*◌, ◌<◌, ◌≤◌, ◌^◌, length, sum, take, drop};
ghost use Rattle.std.specs.Prelude.{slice_index_or, []};
ghost use Rattle.ix_frame.specs.Segments.{numbers_of_four, cut};

use byteorder::{ByteOrder, LittleEndian};

/// The bytes from the n-th on.
pub fn behind(bytes: &[u8], n: usize) -> &[u8]
    requires { n ≤ length bytes.now }
    ensures { result.now ≡ drop n bytes.now }
{
    &bytes[n..]
}

/// The first n bytes.
pub fn front(bytes: &[u8], n: usize) -> &[u8]
    requires { n ≤ length bytes.now }
    ensures { result.now ≡ take n bytes.now }
{
    &bytes[..n]
}

/// The sum of the table's first numbers.
pub fn sum_of_table(table: &[u8], count: usize) -> u64
    requires few { count ≤ 512 }
    requires whole { 4 * count ≤ length table.now }
    ensures sum { result ≡ sum (numbers_of_four count table.now) }
    ensures bound { result ≤ 512 * 2 ^ 32 }
{
    let mut words: u64 = 0;
    let mut rest = table;
    for _ in 0..count {
        words += LittleEndian::read_u32(rest) as u64;
        rest = behind(rest, 4);
    }
    words
}

/// The part with this number of those that the table cuts the bytes into.
pub fn part<'a>(table: &[u8], bytes: &'a [u8], count: u32, number: u32) -> &'a [u8]
    requires whole { 4 * count ≤ length table.now }
    requires inside { 8 * sum (numbers_of_four count table.now) ≤ length bytes.now }
    requires there { number < count }
    ensures part { result.now ≡ slice_index_or (cut (numbers_of_four count table.now) bytes.now)
        number [] }
    ensures short { length result.now ≤ length bytes.now }
{
    let mut ahead = table;
    let mut rest = bytes;
    for _ in 0..number {
        let words = LittleEndian::read_u32(ahead) as usize;
        rest = behind(rest, 8 * words);
        ahead = behind(ahead, 4);
    }
    let words = LittleEndian::read_u32(ahead) as usize;
    front(rest, 8 * words)
}
