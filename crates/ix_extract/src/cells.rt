//! The cells of a netlist.

ghost use Rattle.std.specs.Prelude.{◌≡◌, map, IfOk};
ghost use Rattle.ix_extract.specs.Extracted.{cell_of};

use ix_num::Memory;
use ix_rec::{FlatCell, Items, Phys};
use std::alloc::Global;

/// The placed cells, with their types. `Memory` is the only error.
pub(crate) fn placed_cells(alloc: Global, phys: &Phys) -> Result<Items<FlatCell>, Memory>
    ensures { IfOk result (λ cells. cells ≡ map cell_of phys.now.placements) }
{
    let mut cells = Items::new(alloc);
    for i in 0..phys.placements.len() {
        let placement = phys.placements.at(i);
        cells.push(FlatCell {
            name: placement.cell_name,
            ty: placement.ty,
        })?;
    }
    Ok(cells)
}
