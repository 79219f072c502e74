//! First values by number.

ghost use Rattle.std.specs.Prelude.{◌≡◌, ◌<◌, ℕ, None, Some, Option, nat_eq, option_map, IfOk};
ghost use Rattle.std.specs.Prelude.{IsSome};
ghost use Rattle.ix_first.specs.First.{value_of, or_later};

use ix_num::Memory;
use std::alloc::Global;

/// A table of values by number, below a length. It keeps the first value that is put under a
/// number.
#[derive(Drop)]
pub struct FirstById<V> {
    values: Vec<Option<V>>,
}

impl<V: Copy> FirstById<V> {
    /// A table without values, for the numbers below a length.
    pub fn new(alloc: Global, length: usize) -> Result<FirstById<V>, Memory>
        ensures { IfOk result (λ table. (i : ℕ) → i < length → value_of table i ≡ Some None) }
    {
        let mut values = Vec::new(alloc);
        values.resize(length, None)?;
        Ok(FirstById { values })
    }

    /// Puts a value under a number that has none; the first value stays.
    pub fn put(&mut self, id: usize, value: V)
        ensures { (i : ℕ) → value_of self.new i
            ≡ option_map (λ v. or_later v (nat_eq id i) value) (value_of self.old i) }
    {
        if let Some(None) = self.values.get(id) {
            self.values[id] = Some(value);
        }
    }

    /// The first value that was put under the number; none where there was none.
    pub fn get(&self, id: usize) -> Option<V>
        requires { IsSome (value_of self.now id) }
        ensures { value_of self.now id ≡ Some result }
    {
        self.values[id]
    }
}
