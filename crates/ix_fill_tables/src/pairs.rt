//! Maps from pairs of numbers.

ghost use Rattle.std.specs.Prelude.{◌≡◌, ◌≢◌, ◌+◌, ◌^◌, ◌<◌, ◌≤◌, ℕ, Some, OnErr, OnOk, length};
ghost use Rattle.std.specs.FinMap as map;

use ix_num::Memory;
use std::alloc::Global;
use std::collections::BTreeMap;
use std::collections::btree_map::Iter;
use std::marker::Model;

/// A map from pairs of numbers, which contracts see as a finite map.
#[derive(Drop)]
pub(crate) struct PairMap<V> {
    values: BTreeMap<(u32, u32), V>,
}

impl<V> Model for PairMap<V> {
    ghost use Rattle.ix_rec.specs.Maps.{pin_order};
    ghost use Rattle.std.specs.BTreeMap.{IsOrdered};
    ghost use Rattle.std.specs.Coded.{coded_ℕ, coded×};
    ghost use Rattle.std.specs.FinMap as map;

    ghost Value = { map.FinMap pin_order V };

    ghost coded = { map.code (coded× coded_ℕ coded_ℕ) V.code };

    ghost view = { λ m. map.from_sorted m.values.entries };

    ghost invariant = { λ m. IsOrdered pin_order m.values };
}

impl<V> PairMap<V> {
    /// A map without entries. It takes its memory from the allocator as it grows.
    pub fn new(alloc: Global) -> PairMap<V>
        ensures { result ≡ map.empty }
    {
        PairMap {
            values: BTreeMap::new(alloc),
        }
    }

    /// The pairs that have a value, by their first number and then by their second, each with it.
    pub fn iter(&self) -> Iter<'_, (u32, u32), V>
        ensures entries { result ≡ map.entries self.now }
        ensures fits { length result < 2 ^ 63 }
    {
        self.values.iter()
    }
}

impl<V: Copy> PairMap<V> {
    /// The value of a pair; none exactly where it has none.
    pub fn get(&self, first: u32, second: u32) -> Option<V>
        ensures { result ≡ map.get self.now (first, second) }
    {
        self.values.get(&(first, second)).copied()
    }

    /// Gives a pair this value, in place of the one that it has. `Memory` is the only error, and
    /// after it the map is as before.
    pub fn insert(&mut self, first: u32, second: u32, value: V) -> Result<(), Memory>
        ensures ok { OnOk result (self.new ≡ map.insert self.old (first, second) value) }
        ensures value { OnOk result (map.get self.new (first, second) ≡ Some value) }
        ensures others { (q : ℕ × ℕ) → q ≢ (first, second)
            → map.get self.new q ≡ map.get self.old q }
        ensures few { map.len self.new ≤ map.len self.old + 1 }
        ensures err { OnErr result (self.new ≡ self.old) }
    {
        self.values.insert((first, second), value)?;
        Ok(())
    }
}
