//! Numbers written into the bytes of a file.

ghost use Rattle.std.specs.Prelude.{◌≡◌, ◌+◌, ◌*◌, ◌≤◌, ◌<◌, ◌%◌, ◌/◌, ◌^◌, ◌++◌, [], length, take};
ghost use Rattle.std.specs.Prelude.{drop, vec_len, replicate, OnOk, OnErr};
ghost use Rattle.byteorder.specs.Endian.{little_bytes};
ghost use Rattle.ix_capw.specs.Frame.{root_segment, frame_bytes};
ghost use Rattle.ix_capw.specs.Growth.{written};
ghost use Rattle.ix_message.specs.Layout.{number_bytes};

use byteorder::{ByteOrder, LittleEndian};
use std::alloc::AllocError;

// Writes a word at the byte `at`.
fn put_word(file: &mut [u8], at: usize, word: u64)
    requires { at + 8 ≤ length file.old }
    ensures { file.new ≡ written at 8 (little_bytes 8 word) file.old }
{
    LittleEndian::write_u64(&mut file[at..], word);
}

// Writes the header of one segment of so many words.
fn put_header(file: &mut [u8], words: u32)
    requires { 8 ≤ length file.old }
    ensures { file.new ≡ little_bytes 4 0 ++ little_bytes 4 words ++ drop 8 file.old }
{
    LittleEndian::write_u32(file, 0);
    LittleEndian::write_u32(&mut file[4..], words);
}

// Leaves 8 bytes for the header, and makes the root behind them, in place of what was there.
pub(crate) fn put_root(bytes: &mut Vec<u8>, words: u16, pointers: u16) -> Result<(), AllocError>
    ensures made { OnOk result (drop 8 bytes.new.items ≡ root_segment words pointers) }
    ensures len { OnOk result (length bytes.new.items ≡ 8 * (2 + words + pointers)) }
    ensures nothing { OnErr result (bytes.new.items ≡ []) }
{
    bytes.clear();
    let length = 8 * (2 + words as usize + pointers as usize);
    bytes.resize(length, 0)?;
    let pointer = (words as u64) * (1 << 32) + (pointers as u64) * (1 << 48);
    put_word(bytes.as_mut_slice(), 8, pointer);
    Ok(())
}

// Fills in the header, for which 8 bytes are there or are made.
pub(crate) fn fill_header(bytes: &mut Vec<u8>) -> Result<(), AllocError>
    requires few { vec_len bytes.old < 2 ^ 30 + 8 }
    requires whole { vec_len bytes.old % 8 ≡ 0 }
    ensures { OnOk result (bytes.new.items ≡ frame_bytes (drop 8 bytes.old.items)) }
{
    if bytes.is_empty() {
        bytes.resize(8, 0)?;
    }
    let words = ((bytes.len() - 8) / 8) as u32;
    put_header(bytes.as_mut_slice(), words);
    Ok(())
}

// Puts so many zero bytes at the end, and a pointer's word at the byte `at`.
pub(crate) fn put_object(
    bytes: &mut Vec<u8>,
    at: usize,
    pointer: u64,
    size: usize,
) -> Result<(), AllocError>
    requires inside { at + 8 ≤ vec_len bytes.old }
    requires few { vec_len bytes.old + size < 2 ^ 31 }
    ensures ok { OnOk result (bytes.new.items
        ≡ written at 8 (little_bytes 8 pointer) bytes.old.items ++ replicate size 0) }
    ensures err { OnErr result (bytes.new.items ≡ bytes.old.items) }
{
    let whole = bytes.len() + size;
    bytes.resize(whole, 0)?;
    put_word(bytes.as_mut_slice(), at, pointer);
    Ok(())
}

// Writes a word at the byte `at`.
pub(crate) fn set_word(bytes: &mut Vec<u8>, at: usize, word: u64)
    requires { at + 8 ≤ vec_len bytes.old }
    ensures { bytes.new.items ≡ written at 8 (little_bytes 8 word) bytes.old.items }
{
    put_word(bytes.as_mut_slice(), at, word);
}

// Writes a number of four bytes at the byte `at`.
pub(crate) fn set_number(bytes: &mut Vec<u8>, at: usize, number: u32)
    requires { at + 4 ≤ vec_len bytes.old }
    ensures { bytes.new.items ≡ written at 4 (little_bytes 4 number) bytes.old.items }
{
    put_number(bytes.as_mut_slice(), at, number);
}

// Writes bytes from the byte `at` on.
pub(crate) fn set_bytes(bytes: &mut Vec<u8>, at: usize, text: &[u8])
    requires { at + length text.now ≤ vec_len bytes.old }
    ensures { bytes.new.items ≡ written at (length text.now) text.now bytes.old.items }
{
    put_bytes(bytes.as_mut_slice(), at, text);
}

// Writes numbers of four bytes each from the byte `at` on.
pub(crate) fn set_numbers(bytes: &mut Vec<u8>, at: usize, numbers: &[u32])
    requires few { length numbers.now < 2 ^ 28 }
    requires inside { at + 4 * length numbers.now ≤ vec_len bytes.old }
    ensures made { bytes.new.items ≡ written at (4 * length numbers.now) (number_bytes numbers.now)
        bytes.old.items }
    ensures len { vec_len bytes.new ≡ vec_len bytes.old }
{
    put_numbers(bytes.as_mut_slice(), at, numbers);
}

fn put_number(file: &mut [u8], at: usize, number: u32)
    requires { at + 4 ≤ length file.old }
    ensures { file.new ≡ written at 4 (little_bytes 4 number) file.old }
{
    LittleEndian::write_u32(&mut file[at..], number);
}

fn put_bytes(file: &mut [u8], at: usize, text: &[u8])
    requires { at + length text.now ≤ length file.old }
    ensures { file.new ≡ written at (length text.now) text.now file.old }
{
    file[at..at + text.len()].copy_from_slice(text);
}

fn put_numbers(file: &mut [u8], at: usize, numbers: &[u32])
    requires few { length numbers.now < 2 ^ 28 }
    requires inside { at + 4 * length numbers.now ≤ length file.old }
    ensures { file.new ≡ written at (4 * length numbers.now) (number_bytes numbers.now) file.old }
{
    LittleEndian::write_u32_into(numbers, &mut file[at..at + 4 * numbers.len()]);
}
