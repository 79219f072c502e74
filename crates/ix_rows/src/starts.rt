//! Where rows start.

ghost use Rattle.std.specs.Prelude.{◌<◌, ◌^◌, IfOk};
ghost use Rattle.std.specs.List.{sum};
ghost use Rattle.ix_rows.specs.Layout.{AreStartsFor};

use ix_num::Memory;
use std::alloc::Global;

/// The place at which each row starts, one row behind another, and last the number of all items.
/// `Memory` is the only error.
pub(crate) fn starts_for(alloc: Global, sizes: &[u32]) -> Result<Vec<u32>, Memory>
    requires { sum sizes.now < 2 ^ 32 }
    ensures { IfOk result (λ starts. AreStartsFor sizes.now starts.items) }
{
    let mut starts = Vec::with_capacity(alloc, sizes.len() + 1)?;
    let mut start = 0;
    starts.push(start)?;
    for size in sizes {
        start += *size;
        starts.push(start)?;
    }
    Ok(starts)
}
