//! Counts by name.

ghost use Rattle.std.specs.Prelude.{◌≡◌, ℕ, nat_eq, if◌then◌else◌, OnOk};
ghost use Rattle.ix_device.specs.Counts.{count_at};

use ix_num::{Memory, NameId};
use std::alloc::Global;
use std::collections::HashMap;

/// How many things were counted under each name.
#[derive(Drop)]
pub(crate) struct Counts {
    counts: HashMap<u32, u32>,
}

impl Counts {
    /// Counts that are all 0. They take their memory from the allocator as they grow.
    pub(crate) fn new(alloc: Global) -> Counts
        ensures { (name : ℕ) → count_at result name ≡ 0 }
    {
        Counts {
            counts: HashMap::new(alloc),
        }
    }

    /// The count of a name.
    pub(crate) fn get(&self, name: NameId) -> u32
        ensures { result ≡ count_at self.now name }
    {
        self.counts.get(&name.get()).copied().unwrap_or(0)
    }

    /// Gives a name another count.
    pub(crate) fn set(&mut self, name: NameId, count: u32) -> Result<(), Memory>
        ensures { OnOk result ((q : ℕ) → count_at self.new q
            ≡ (if nat_eq name q then count else count_at self.old q)) }
    {
        self.counts.insert(name.get(), count)?;
        Ok(())
    }
}
