//! The numbers of cells by name.

ghost use Rattle.std.specs.Prelude.{◌<◌, ◌^◌, ℕ, length, IfOk};
ghost use Rattle.ix_differences.specs.Numbers.{KnowsCell};

use ix_first::FirstById;
use ix_num::{CellId, Memory};
use ix_rec::Flat;
use std::alloc::Global;

/// The number of the cell of each name, by the name's number.
pub(crate) type CellNumbers = FirstById<CellId>;

/// The numbers of a design's cells, among so many names. `Memory` is the only error. It takes 8
/// bytes a name.
pub(crate) fn numbers_of(alloc: Global, flat: &Flat, names: u32) -> Result<CellNumbers, Memory>
    requires few { length flat.now.cells < 2 ^ 32 }
    ensures { IfOk result (λ numbers. (name : ℕ) → name < names
        → KnowsCell flat.now numbers name) }
{
    let mut numbers = CellNumbers::new(alloc, names as usize)?;
    for i in 0..flat.cells.len() {
        let name = flat.cells.at(i).name;
        numbers.put(name.get() as usize, CellId::new(i as u32));
    }
    Ok(numbers)
}
