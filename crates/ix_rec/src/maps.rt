//! The maps of a flat design, which contracts see as finite maps.

ghost use Rattle.std.specs.Prelude.{◌≡◌, ◌≢◌, ◌^◌, ◌<◌, Some, ℕ, OnErr, OnOk, filter, length};
ghost use Rattle.std.specs.Prelude.{nat_le};
ghost use Rattle.std.specs.FinMap as map;

use ix_num::{CellId, Memory, NameId};
use std::alloc::Global;
use std::collections::BTreeMap;
use std::collections::btree_map::{Iter, Range};
use std::marker::Model;

/// A map from cells.
#[derive(Drop)]
pub struct CellMap<V> {
    values: BTreeMap<CellId, V>,
}

impl<V> Model for CellMap<V> {
    ghost use Rattle.std.specs.Ordering.{nat_cmp};
    ghost use Rattle.std.specs.BTreeMap.{IsOrdered};
    ghost use Rattle.std.specs.Coded.{coded_ℕ};
    ghost use Rattle.std.specs.FinMap as map;

    ghost Value = { map.FinMap nat_cmp V };

    ghost coded = { map.code coded_ℕ V.code };

    ghost view = { λ m. map.from_sorted m.values.entries };

    ghost invariant = { λ m. IsOrdered nat_cmp m.values };
}

impl<V> CellMap<V> {
    /// A map without entries. It takes its memory from the allocator as it grows.
    pub fn new(alloc: Global) -> CellMap<V>
        ensures { result ≡ map.empty }
    {
        CellMap {
            values: BTreeMap::new(alloc),
        }
    }

    /// How many cells have a value.
    pub fn len(&self) -> usize
        ensures { result ≡ map.len self.now }
    {
        self.values.len()
    }

    /// The cells that have a value, rising, each with it.
    pub fn iter(&self) -> Iter<'_, CellId, V>
        ensures entries { result ≡ map.entries self.now }
        ensures fits { length result < 2 ^ 63 }
    {
        self.values.iter()
    }
}

impl<V: Copy> CellMap<V> {
    /// The cell's value; none exactly where it has none.
    pub fn get(&self, cell: CellId) -> Option<V>
        ensures { result ≡ map.get self.now cell }
    {
        self.values.get(&cell).copied()
    }

    /// Gives the cell this value, in place of the one that it has. The map grows, and after
    /// `Memory` it is as before.
    pub fn insert(&mut self, cell: CellId, value: V) -> Result<(), Memory>
        ensures ok { OnOk result (self.new ≡ map.insert self.old cell value) }
        ensures value { OnOk result (map.get self.new cell ≡ Some value) }
        ensures others { (q : ℕ) → q ≢ cell → map.get self.new q ≡ map.get self.old q }
        ensures err { OnErr result (self.new ≡ self.old) }
    {
        self.values.insert(cell, value)?;
        Ok(())
    }
}

/// A map from pins, each a cell and a name.
#[derive(Drop)]
pub struct PinMap<V> {
    values: BTreeMap<(CellId, NameId), V>,
}

impl<V> Model for PinMap<V> {
    ghost use Rattle.ix_rec.specs.Maps.{pin_order};
    ghost use Rattle.std.specs.BTreeMap.{IsOrdered};
    ghost use Rattle.std.specs.Coded.{coded_ℕ, coded×};
    ghost use Rattle.std.specs.FinMap as map;

    ghost Value = { map.FinMap pin_order V };

    ghost coded = { map.code (coded× coded_ℕ coded_ℕ) V.code };

    ghost view = { λ m. map.from_sorted m.values.entries };

    ghost invariant = { λ m. IsOrdered pin_order m.values };
}

impl<V> PinMap<V> {
    /// A map without entries. It takes its memory from the allocator as it grows.
    pub fn new(alloc: Global) -> PinMap<V>
        ensures { result ≡ map.empty }
    {
        PinMap {
            values: BTreeMap::new(alloc),
        }
    }

    /// How many pins have a value.
    pub fn len(&self) -> usize
        ensures { result ≡ map.len self.now }
    {
        self.values.len()
    }

    /// The pins that have a value, by cell and at one cell by the number of their name, each with
    /// it.
    pub fn iter(&self) -> Iter<'_, (CellId, NameId), V>
        ensures entries { result ≡ map.entries self.now }
        ensures fits { length result < 2 ^ 63 }
    {
        self.values.iter()
    }

    /// The same from a cell on: first come that cell's own pins.
    pub fn from_cell(&self, cell: CellId) -> Range<'_, (CellId, NameId), V>
        ensures entries { result ≡ filter (λ e. nat_le cell e.0.0) (map.entries self.now) }
        ensures fits { length result < 2 ^ 63 }
    {
        self.values.range((cell, NameId::new(0))..)
    }
}

impl<V: Copy> PinMap<V> {
    /// The pin's value; none exactly where it has none.
    pub fn get(&self, cell: CellId, pin: NameId) -> Option<V>
        ensures { result ≡ map.get self.now (cell, pin) }
    {
        self.values.get(&(cell, pin)).copied()
    }

    /// Gives the pin this value, in place of the one that it has. The map grows, and after `Memory`
    /// it is as before.
    pub fn insert(&mut self, cell: CellId, pin: NameId, value: V) -> Result<(), Memory>
        ensures ok { OnOk result (self.new ≡ map.insert self.old (cell, pin) value) }
        ensures value { OnOk result (map.get self.new (cell, pin) ≡ Some value) }
        ensures others { (q : ℕ × ℕ) → q ≢ (cell, pin) → map.get self.new q ≡ map.get self.old q }
        ensures err { OnErr result (self.new ≡ self.old) }
    {
        self.values.insert((cell, pin), value)?;
        Ok(())
    }
}
