//! Numbers in words.

ghost use Rattle.std.specs.Prelude.{◌≡◌, ◌≤◌, ◌<◌, ◌^◌, length, Some, None, if◌then◌else◌};
ghost use Rattle.std.specs.Prelude.{IfSome};
ghost use Rattle.std.specs.List.{list_all};
ghost use Rattle.ix_words.specs.Numbers.{is_digit, decimal_value, number_in};

/// The most digits of a number. They write less than `2^67`.
const MOST_DIGITS: usize = 20;

// What digits write, if they are digits.
fn value_of(digits: &[u8]) -> Option<u128>
    requires { length digits.now ≤ 20 }
    ensures { result ≡ (if list_all is_digit digits.now then Some (decimal_value digits.now)
        else None) }
{
    let mut value: u128 = 0;
    for &digit in digits {
        if !digit.is_ascii_digit() {
            return None;
        }
        value = value * 10 + u128::from(digit - b'0');
    }
    Some(value)
}

/// The number that a text writes with 1 to 20 decimal digits and nothing else, leading zeros
/// allowed; None where it writes none, or one that isn't from `low` to `high`.
#[tactic(auto, unfolding(crate::specs::Numbers::number_in))]
pub(crate) fn number_in(text: &str, low: u64, high: u64) -> Option<u64>
    ensures value { result ≡ number_in text.now low high }
    ensures least { IfSome result (λ number. low ≤ number) }
    ensures most { IfSome result (λ number. number ≤ high) }
{
    let digits = text.as_bytes();
    if digits.is_empty() || digits.len() > MOST_DIGITS {
        return None;
    }
    let value = value_of(digits)?;
    if value < u128::from(low) || value > u128::from(high) {
        return None;
    }
    Some(value as u64)
}
