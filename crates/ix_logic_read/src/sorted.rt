//! Numbers that are looked up.

use std::marker::Model;

/// Numbers that rise, so that one is looked up in as many steps as their count has bits.
#[derive(Drop)]
pub struct Sorted {
    numbers: Vec<u64>,
}

impl Model for Sorted {
    ghost use Rattle.std.specs.Prelude.{List, ℕ};
    ghost use Rattle.std.specs.List.Sorted.{IsNonDecreasing};

    ghost Value = { List ℕ };

    ghost view = { λ s. s.numbers.items };

    ghost invariant = { λ s. IsNonDecreasing s.numbers.items };
}

impl Sorted {
    ghost use Rattle.std.specs.Prelude.{◌≡◌, ℕ};
    ghost use Rattle.ix_message.specs.Indexes.{has_number};

    /// These numbers, sorted where they stand.
    pub fn new(numbers: Vec<u64>) -> Sorted
        ensures { (n : ℕ) → has_number result n ≡ has_number numbers.items n }
    {
        let mut numbers = numbers;
        numbers.sort_unstable();
        Sorted { numbers }
    }

    /// Whether this is one of them.
    pub fn has(&self, n: u64) -> bool
        ensures { result ≡ has_number self.now n }
    {
        self.numbers.binary_search(&n).is_ok()
    }
}
