//! First values by key.

ghost use Rattle.std.specs.Prelude.{◌≡◌, None, is_none, IfOk, OnOk, OnErr};
ghost use Rattle.ix_keys.specs.declared.key.Key.{Key as KeySeen};
ghost use Rattle.ix_keys.specs.Keys.{key_eq};
ghost use Rattle.ix_first.specs.First.{value_at, or_later};

use ix_keys::Key;
use ix_num::Memory;
use std::alloc::Global;
use std::collections::HashMap;

/// A table of values by key. It keeps the first value that is put under a key.
#[derive(Drop)]
pub struct FirstByKey<V> {
    values: HashMap<Key, V>,
}

impl<V> FirstByKey<V> {
    /// A table without values. It takes its memory from the allocator as it grows.
    pub fn new(alloc: Global) -> FirstByKey<V>
        ensures { (q : KeySeen) → value_at result q ≡ None }
    {
        FirstByKey {
            values: HashMap::new(alloc),
        }
    }
}

impl<V: Copy> FirstByKey<V> {
    /// Puts a value under a key that has none, and says whether it had none; the first value stays.
    /// The table grows, and after `Memory` it is as before.
    pub fn put(&mut self, key: Key, value: V) -> Result<bool, Memory>
        ensures new { IfOk result (λ new. new ≡ is_none (value_at self.old key)) }
        ensures values { OnOk result ((q : KeySeen)
            → value_at self.new q ≡ or_later (value_at self.old q) (key_eq key q) value) }
        ensures unchanged { OnErr result ((q : KeySeen)
            → value_at self.new q ≡ value_at self.old q) }
    {
        if self.values.contains_key(&key) {
            return Ok(false);
        }
        self.values.insert(key, value)?;
        Ok(true)
    }

    /// The first value that was put under the key, which is hashed once; none exactly where there
    /// was none.
    pub fn get(&self, key: Key) -> Option<V>
        ensures { result ≡ value_at self.now key }
    {
        self.values.get(&key).copied()
    }
}
