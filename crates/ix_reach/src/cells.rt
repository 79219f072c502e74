//! The cells of each declaration.

ghost use Rattle.std.specs.Prelude.{◌≡◌, ◌<◌, length, IfOk, true, false};
ghost use Rattle.ix_hierarchy.specs.Broken.{HasTwoCells};
ghost use Rattle.ix_reach.specs.Cells.{AreCells, CellsFit, IsLeastWithTwo};

use ix_first::number_of;
use ix_num::Memory;
use ix_rec::NetlistRec;
use std::alloc::Global;

/// The cells of each declaration, by their places in the netlist's list.
#[derive(Drop)]
pub(crate) struct CellTable {
    /// The first cell of each declaration.
    pub(crate) first: Vec<Option<u32>>,
    /// Behind each cell the next one of the same declaration.
    pub(crate) next: Vec<Option<u32>>,
}

/// The table of a netlist.
pub(crate) fn cell_table(alloc: Global, rec: &NetlistRec) -> Result<CellTable, Memory>
    requires { CellsFit rec.now }
    ensures { IfOk result (λ table. AreCells rec.now table.first.items table.next.items) }
{
    let count = number_of(rec.cell_list.len())?;
    let mut first = Vec::new(alloc);
    first.resize(rec.cell_decls.len(), None)?;
    let mut next = Vec::new(alloc);
    next.resize(rec.cell_list.len(), None)?;
    // From the last cell on, so that the first one of a declaration comes to stand first.
    let mut cell = count;
    while cell > 0 {
        cell -= 1;
        let declaration = rec.cell_list.at(cell as usize).index as usize;
        next[cell as usize] = first[declaration];
        first[declaration] = Some(cell);
    }
    Ok(CellTable { first, next })
}

/// Whether a declaration has two cells.
fn has_two(rec: &NetlistRec, cells: &CellTable, declaration: u32) -> bool
    requires cells { AreCells rec.now cells.now.first.items cells.now.next.items }
    requires within { declaration < length rec.now.cell_decls }
    ensures yes { result ≡ true → HasTwoCells rec.now declaration }
    ensures no { result ≡ false → HasTwoCells rec.now declaration → ⊥ }
{
    match cells.first[declaration as usize] {
        Some(cell) => cells.next[cell as usize].is_some(),
        None => false,
    }
}

/// The first declaration that has two cells, of so many declarations.
pub(crate) fn first_with_two(rec: &NetlistRec, cells: &CellTable, count: u32) -> Option<u32>
    requires many { count ≡ length rec.now.cell_decls }
    requires fits { CellsFit rec.now }
    requires cells { AreCells rec.now cells.now.first.items cells.now.next.items }
    ensures { IsLeastWithTwo rec.now result }
{
    for declaration in 0..count {
        if has_two(rec, cells, declaration) {
            return Some(declaration);
        }
    }
    None
}
