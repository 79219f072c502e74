//! Names that are added, and how many may be.

ghost use Rattle.std.specs.Prelude.{◌≡◌, ◌+◌, ◌-◌, ◌^◌, ◌<◌, ◌≤◌, Some, length, slice_get, IfOk};
ghost use Rattle.ix_strings.specs.Names.{KeepsNumbers};

use ix_num::{Memory, NameId};
use ix_strings::Names;

/// How many names flattening adds at most.
pub const MOST_NAMES: u32 = 1 << 29;

/// Adds a name. The count of those that may still be added falls; where it is 0, memory is wanting.
pub fn add_name(names: &mut Names, left: &mut u32, text: &str) -> Result<NameId, Memory>
    requires { length names.old + left.old < 2 ^ 32 - 1 }
    ensures text { IfOk result (λ id. slice_get names.new id ≡ Some text.now) }
    ensures keeps { KeepsNumbers names.old names.new }
    ensures counted { length names.new + left.new ≤ length names.old + left.old }
{
    if *left == 0 {
        return Err(Memory);
    }
    *left -= 1;
    names.add(text)
}
