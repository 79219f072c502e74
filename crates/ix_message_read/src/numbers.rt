//! Lists of numbers.

ghost use Rattle.std.specs.Prelude.{◌≡◌, IfOk};
ghost use Rattle.ix_frame.specs.Views.{numbers_of};

use ix_frame::Numbers;
use ix_num::Memory;
use ix_rec::Items;
use std::alloc::Global;

/// A copy of a list of numbers. `Memory` is its only error.
pub fn read_numbers(alloc: Global, l: Numbers<'_>) -> Result<Items<u32>, Memory>
    ensures { IfOk result (λ v. v ≡ numbers_of l.entry) }
{
    let mut found = Items::with_capacity(alloc, l.len() as usize)?;
    for i in 0..l.len() {
        found.push(l.at(i))?;
    }
    Ok(found)
}
