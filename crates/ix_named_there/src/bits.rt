//! The bits of LUT tables.

ghost use Rattle.std.specs.Prelude.{◌≡◌, ◌<◌, IfSome};
ghost use Rattle.ix_legal.specs.TableKeys.{upper_digit, table_bits};

// The value of a hexadecimal digit, in upper case.
fn digit_of(byte: u8) -> Option<u64>
    ensures value { result ≡ upper_digit byte }
    ensures below { IfSome result (λ digit. digit < 16) }
{
    match byte {
        b'0'..=b'9' => Some(u64::from(byte - b'0')),
        b'A'..=b'F' => Some(u64::from(byte - b'A' + 10)),
        _ => None,
    }
}

/// The bits that a table's value tells: 16 hexadecimal digits in upper case, the most significant
/// first; none exactly where the text is something else.
pub fn table_bits_of(text: &str) -> Option<u64>
    ensures { result ≡ table_bits text.now }
{
    let digits = text.as_bytes();
    if digits.len() != 16 {
        return None;
    }
    let mut bits: u64 = 0;
    for i in 0..digits.len() {
        let digit = digit_of(digits[i])?;
        bits = bits * 16 + digit;
    }
    Some(bits)
}
