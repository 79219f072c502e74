//! The data section of a struct.

ghost use Rattle.std.specs.Prelude.{◌≡◌, ◌≤◌, ◌<◌, ◌+◌, ◌*◌, ◌/◌, ◌^◌, length};
ghost use Rattle.ix_message.specs.Layout.{data_section, number_bytes};
ghost use Rattle.ix_capw.specs.Growth.{written, IsInside, IsSegment};

use ix_capw::{At, Builder};

/// Sets the whole data section of a struct: these numbers in its slots, and zero in the half word
/// behind them where there is one.
pub fn write_row(builder: &mut Builder, at: At, numbers: &[u32])
    requires inside { IsInside at builder.old }
    requires segment { IsSegment builder.old }
    requires whole { at.words ≡ (length numbers.now + 1) / 2 }
    requires few { length numbers.now < 2 ^ 16 }
    ensures made { builder.new ≡ written (8 * at.start) (8 * at.words) (data_section numbers.now)
        builder.old }
    ensures segment { IsSegment builder.new }
{
    write_numbers(builder, at, numbers);
    if numbers.len() % 2 == 1 {
        builder.set_u32(at, numbers.len() as u16, 0);
    }
}

// Sets the first slots.
fn write_numbers(builder: &mut Builder, at: At, numbers: &[u32])
    requires inside { IsInside at builder.old }
    requires segment { IsSegment builder.old }
    requires short { length numbers.now ≤ 2 * at.words }
    requires few { length numbers.now < 2 ^ 16 }
    ensures made { builder.new ≡ written (8 * at.start) (4 * length numbers.now)
        (number_bytes numbers.now) builder.old }
    ensures len { length builder.new ≡ length builder.old }
    ensures segment { IsSegment builder.new }
{
    for (slot, number) in numbers.iter().enumerate() {
        builder.set_u32(at, slot as u16, *number);
    }
}
