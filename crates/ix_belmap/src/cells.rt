//! How many cells are of each type.

ghost use Rattle.std.specs.Prelude.{◌≡◌, ℕ, None, Some, nat_eq, unwrap_or, if◌then◌else◌, IfOk};
ghost use Rattle.std.specs.Prelude.{OnOk};
ghost use Rattle.ix_belmap.specs.Counts.{cells_of_type};
ghost use Rattle.ix_belmap.specs.Sites.{of_type};

use ix_num::{Memory, NameId};
use ix_rec::{FlatCell, Items};
use std::alloc::Global;
use std::collections::HashMap;

/// Numbers of cells by type.
#[derive(Drop)]
pub(crate) struct CellCounts {
    counts: HashMap<u32, u64>,
}

impl CellCounts {
    // No counts. They take their memory from the allocator as they grow.
    fn new(alloc: Global) -> CellCounts
        ensures { (ty : ℕ) → of_type result ty ≡ None }
    {
        CellCounts {
            counts: HashMap::new(alloc),
        }
    }

    /// The count of a type; 0 where it has none.
    pub(crate) fn get(&self, ty: NameId) -> u64
        ensures { result ≡ unwrap_or (of_type self.now ty) 0 }
    {
        self.counts.get(&ty.get()).copied().unwrap_or(0)
    }

    // Gives a type another count.
    fn set(&mut self, ty: NameId, count: u64) -> Result<(), Memory>
        ensures { OnOk result ((q : ℕ) → of_type self.new q
            ≡ (if nat_eq ty q then Some count else of_type self.old q)) }
    {
        self.counts.insert(ty.get(), count)?;
        Ok(())
    }
}

/// How many cells each type has.
pub(crate) fn cell_counts(alloc: Global, cells: &Items<FlatCell>) -> Result<CellCounts, Memory>
    ensures { IfOk result (λ counts. (ty : ℕ)
        → unwrap_or (of_type counts ty) 0 ≡ cells_of_type ty cells.now) }
{
    let mut counts = CellCounts::new(alloc);
    for i in 0..cells.len() {
        let ty = cells.at(i).ty;
        let count = counts.get(ty);
        counts.set(ty, count + 1)?;
    }
    Ok(counts)
}
