//! The INIT property of a LUT cell.

ghost use Rattle.std.specs.Prelude.{◌≡◌, ◌≤◌, ◌<◌, ◌^◌, ◌++◌, None, codes, option_map};
ghost use Rattle.std.specs.Prelude.{option_and_then, MatchOption, IfSome, Some};
ghost use Rattle.ix_lut.specs.Init.{behind, digit, digit_behind, spelled_number, text_number};
ghost use Rattle.ix_lut.specs.Init.{number_below};
ghost use Rattle.ix_lut.specs.Init.{init_bits, width_text};

use crate::table::Table;

/// The value of an INIT property.
#[derive(Clone, Copy)]
pub enum InitValue<'a> {
    /// A text.
    Text(&'a str),
    /// A number.
    Int(u32),
}

// What a text of a LUT of this many inputs begins with where its width stands before hexadecimal
// digits.
fn hexadecimal_front(inputs: u32) -> &'static [u8]
    requires least { 1 ≤ inputs }
    requires most { inputs ≤ 6 }
    ensures { result.now ≡ width_text inputs ++ codes "'h" }
{
    match inputs {
        1 => b"2'h",
        2 => b"4'h",
        3 => b"8'h",
        4 => b"16'h",
        5 => b"32'h",
        _ => b"64'h",
    }
}

// And before binary digits.
fn binary_front(inputs: u32) -> &'static [u8]
    requires least { 1 ≤ inputs }
    requires most { inputs ≤ 6 }
    ensures { result.now ≡ width_text inputs ++ codes "'b" }
{
    match inputs {
        1 => b"2'b",
        2 => b"4'b",
        3 => b"8'b",
        4 => b"16'b",
        5 => b"32'b",
        _ => b"64'b",
    }
}

// The value of a digit, in either case.
fn digit_of(byte: u8) -> Option<u8>
    ensures { result ≡ digit byte }
{
    match byte {
        b'0'..=b'9' => Some(byte - b'0'),
        b'a'..=b'f' => Some(byte - b'a' + 10),
        b'A'..=b'F' => Some(byte - b'A' + 10),
        _ => None,
    }
}

// What stands behind this beginning of a text, if the text begins so.
fn rest_of<'a>(text: &'a [u8], front: &[u8]) -> Option<&'a [u8]>
    ensures { MatchOption result (behind front.now text.now ≡ None)
        (λ rest. behind front.now text.now ≡ Some rest.now) }
{
    text.strip_prefix(front)
}

// How many tables of this many inputs there are.
fn tables_of(inputs: u32) -> u128
    requires least { 1 ≤ inputs }
    requires most { inputs ≤ 6 }
    ensures count { result ≡ 2 ^ (2 ^ inputs) }
    ensures most { result ≤ 2 ^ 64 }
{
    match inputs {
        1 => 1 << 2,
        2 => 1 << 4,
        3 => 1 << 8,
        4 => 1 << 16,
        5 => 1 << 32,
        _ => 1 << 64,
    }
}

// A number with a digit behind it, if it stays below a limit.
fn with_digit(value: u128, base: u8, byte: u8, limit: u128) -> Option<u128>
    requires value { value < limit }
    requires limit { limit ≤ 2 ^ 64 }
    requires base { base ≤ 16 }
    ensures { result ≡ option_and_then (number_below limit) (digit_behind base value byte) }
{
    let digit = digit_of(byte)?;
    if digit >= base {
        return None;
    }
    let value = value * u128::from(base) + u128::from(digit);
    if value >= limit {
        return None;
    }
    Some(value)
}

// The number that digits spell in a base, if it is below a limit.
fn spelled(digits: &[u8], base: u8, limit: u128) -> Option<u64>
    requires least { 1 ≤ base }
    requires most { base ≤ 16 }
    requires some { 0 < limit }
    requires limit { limit ≤ 2 ^ 64 }
    ensures { result ≡ option_and_then (number_below limit) (spelled_number base digits.now) }
{
    if digits.is_empty() {
        return None;
    }
    let mut value = 0;
    for i in 0..digits.len() {
        // Once it is past the limit, digits that follow make it only greater.
        value = with_digit(value, base, digits[i], limit)?;
    }
    Some(value as u64)
}

// The bits that a text reads as.
#[tactic(auto, unfolding(crate::specs::Init::text_number))]
fn text_bits(text: &[u8], inputs: u32) -> Option<u64>
    requires least { 1 ≤ inputs }
    requires most { inputs ≤ 6 }
    ensures { result
        ≡ option_and_then (number_below (2 ^ (2 ^ inputs))) (text_number inputs text.now) }
{
    let limit = tables_of(inputs);
    if let Some(digits) = rest_of(text, hexadecimal_front(inputs)) {
        return spelled(digits, 16, limit);
    }
    if let Some(digits) = rest_of(text, binary_front(inputs)) {
        return spelled(digits, 2, limit);
    }
    if let Some(digits) = rest_of(text, b"0x") {
        return spelled(digits, 16, limit);
    }
    if let Some(digits) = rest_of(text, b"0b") {
        return spelled(digits, 2, limit);
    }
    if text.len() == 1 << inputs {
        return spelled(text, 2, limit);
    }
    None
}

/// The table of so many inputs, 1 to 6, that an INIT property reads as. A number is the table
/// itself. A text has the table's width of `2^inputs` bits, `'h` or `'b` and digits, or `0x` or
/// `0b` and digits, or it is exactly `2^inputs` binary digits. Hexadecimal digits are of either
/// case, all else is lower case; there is at least one digit, and no sign, space or underscore.
/// None for any other text, and where the number has more than `2^inputs` bits.
pub fn read_init(value: InitValue<'_>, inputs: u32) -> Option<Table>
    requires least { 1 ≤ inputs }
    requires most { inputs ≤ 6 }
    ensures bits { option_map (λ table. table.bits) result ≡ init_bits value.entry inputs }
    ensures inputs { IfSome result (λ table. table.inputs ≡ inputs) }
{
    let bits = match value {
        InitValue::Text(text) => text_bits(text.as_bytes(), inputs)?,
        InitValue::Int(number) if u128::from(number) < tables_of(inputs) => u64::from(number),
        InitValue::Int(_) => return None,
    };
    Some(Table { bits, inputs })
}
