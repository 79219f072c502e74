//! The table of keys.

ghost use Rattle.std.specs.Prelude.{◌≡◌, ◌<◌, ◌^◌, [], Some, not, length, slice_get, position};
ghost use Rattle.std.specs.Prelude.{IfOk, IfSome, OnErr, OnOk};
ghost use Rattle.ix_keys.specs.Keys.{key_eq, has_key, with_key, AllDiffer};

use crate::key::Key;
use indexmap::IndexSet;
use ix_num::Memory;
use std::alloc::Global;
use std::marker::Model;

/// Keys, each once, in the order in which they were added. Contracts see the list of them.
#[derive(Drop)]
pub struct Keys {
    keys: IndexSet<Key>,
}

impl Model for Keys {
    ghost use Rattle.std.specs.Prelude.{List};
    ghost use Rattle.ix_keys.specs.declared.key.Key.{Key};
    ghost use Rattle.ix_keys.specs.Keys.{IsTable};

    ghost Value = { List Key };

    ghost view = { λ k. k.keys.keys };

    ghost invariant = { λ k. IsTable k.keys.keys };
}

impl Keys {
    /// A table without keys. It takes its memory from the allocator as it grows.
    pub fn new(alloc: Global) -> Keys
        ensures { result ≡ [] }
    {
        Keys {
            keys: IndexSet::new(alloc),
        }
    }

    /// Adds the key where it is new, and says whether it is. The key is hashed once. The table
    /// grows, and after `Memory` it is as before. A table has at most 2^32 - 1 keys.
    pub fn add(&mut self, key: Key) -> Result<bool, Memory>
        ensures new { IfOk result (λ new. new ≡ not (has_key self.old key)) }
        ensures keys { OnOk result (self.new ≡ with_key self.old key) }
        ensures err { OnErr result (self.new ≡ self.old) }
        ensures differ { AllDiffer self.new }
    {
        if self.keys.len() >= u32::MAX as usize {
            return Err(Memory);
        }
        let (_, new) = self.keys.insert_full(key)?;
        Ok(new)
    }

    /// The place of the key; none exactly where it isn't in the table. The key is hashed once.
    pub fn find(&self, key: Key) -> Option<u32>
        ensures place { result ≡ position (key_eq key) self.now }
        ensures within { IfSome result (λ place. place < length self.now) }
        ensures key { IfSome result (λ place. slice_get self.now place ≡ Some key) }
        ensures differ { AllDiffer self.now }
    {
        match self.keys.get_index_of(&key) {
            Some(place) => Some(place as u32),
            None => None,
        }
    }

    /// Whether the table has the key, which is hashed once.
    pub fn has(&self, key: Key) -> bool
        ensures { result ≡ has_key self.now key }
    {
        self.keys.contains(&key)
    }

    /// How many keys there are. Their places are the numbers below it.
    pub fn len(&self) -> u32
        ensures count { result ≡ length self.now }
        ensures few { length self.now < 2 ^ 32 }
        ensures differ { AllDiffer self.now }
    {
        self.keys.len() as u32
    }
}
