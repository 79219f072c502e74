//! Values by cell type.

ghost use Rattle.std.specs.Prelude.{◌≡◌, ℕ, None, Some, nat_eq, if◌then◌else◌, OnOk};
ghost use Rattle.ix_first_fit.specs.ByTypes.{of_type};

use ix_num::{Memory, NameId};
use std::alloc::Global;
use std::collections::HashMap;

/// A value for each of some cell types.
#[derive(Drop)]
pub(crate) struct ByType<V> {
    values: HashMap<u32, V>,
}

impl<V> ByType<V> {
    /// No values. They take their memory from the allocator as they grow.
    pub(crate) fn new(alloc: Global) -> ByType<V>
        ensures { (ty : ℕ) → of_type result ty ≡ None }
    {
        ByType {
            values: HashMap::new(alloc),
        }
    }
}

impl<V: Copy> ByType<V> {
    /// The value of a type; none exactly where it has none.
    pub(crate) fn get(&self, ty: NameId) -> Option<V>
        ensures { result ≡ of_type self.now ty }
    {
        self.values.get(&ty.get()).copied()
    }

    /// Gives a type another value.
    pub(crate) fn set(&mut self, ty: NameId, value: V) -> Result<(), Memory>
        ensures { OnOk result ((q : ℕ) → of_type self.new q
            ≡ (if nat_eq ty q then Some value else of_type self.old q)) }
    {
        self.values.insert(ty.get(), value)?;
        Ok(())
    }
}
