//! How many branches stand side by side.

ghost use Rattle.std.specs.Prelude.{◌≡◌, IfOk};
ghost use Rattle.ix_phys_write.specs.Trees.{AreWidths};

use ix_rec::{Forest, Segment};
use std::alloc::{AllocError, Global};

/// How many trees a forest has, and how many branches follow each of its items.
#[derive(Drop)]
pub struct Widths {
    /// The number of trees.
    pub roots: usize,
    /// For each item the number of the items right below it.
    pub below: Vec<usize>,
}

/// The widths of a forest, counted from its end. `Memory` is the only error.
pub fn widths_of(alloc: Global, forest: &Forest) -> Result<Widths, AllocError>
    ensures { IfOk result (λ widths. AreWidths forest.now widths.roots widths.below.items) }
{
    let count = forest.len();
    let mut below = Vec::new(alloc);
    below.resize(count, 0)?;
    // For each depth how many items of that depth follow, up to the next item above them.
    let mut beside = Vec::new(alloc);
    beside.resize(count + 2, 0)?;
    for done in 0..count {
        let i = count - 1 - done;
        let depth = forest.at(i).depth as usize;
        below[i] = beside[depth + 1];
        beside[depth + 1] = 0;
        beside[depth] += 1;
    }
    let roots = beside[0];
    Ok(Widths { roots, below })
}
