//! Filling a table number by number.

ghost use Rattle.std.specs.Prelude.{◌≡◌, ℕ, None, option_map, nat_eq, if◌then◌else◌};
ghost use Rattle.std.specs.Option.{option_or};
ghost use Rattle.ix_first.specs.First.{value_of};

use ix_first::FirstById;

/// Puts a value that was found under a number that has none.
pub(crate) fn put_found<V: Copy>(table: &mut FirstById<V>, id: usize, found: Option<V>)
    ensures { (i : ℕ) → value_of table.new i
        ≡ option_map (λ v. option_or v (if nat_eq id i then found else None))
        (value_of table.old i) }
{
    if let Some(value) = found {
        table.put(id, value);
    }
}
