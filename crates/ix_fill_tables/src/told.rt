//! The truth tables that a flat design tells, by the names of its cells.

ghost use Rattle.std.specs.Prelude.{◌≡◌, ◌<◌, IfOk};
ghost use Rattle.ix_fill_tables.specs.Told.{AreTold, told_table, of_inputs};

use ix_first::number_of;
use ix_num::{CellId, Memory, NameId};
use ix_rec::{Flat, TruthTable};
use ix_table_keys::PlacesByName;
use std::alloc::Global;

/// The tables of a design's cells, found by name.
#[derive(Drop)]
pub(crate) struct ToldTables {
    // The first cell of each name.
    pub(crate) cells: PlacesByName,
}

impl ToldTables {
    /// The tables of a design, whose names are among so many. `Memory` is the only error. It takes
    /// 8 bytes a name.
    pub fn new(alloc: Global, flat: &Flat, names: u32) -> Result<ToldTables, Memory>
        ensures { IfOk result (AreTold flat.now names) }
    {
        let mut cells = PlacesByName::new(alloc, names as usize)?;
        for q in 0..flat.cells.len() {
            let number = number_of(q)?;
            cells.put(flat.cells.at(q).name.get() as usize, number);
        }
        Ok(ToldTables { cells })
    }

    /// The table of the first cell of this name; none exactly where there is no such cell, or it
    /// has no table, or one of another number of inputs.
    pub fn table(&self, flat: &Flat, names: u32, name: NameId, inputs: u32) -> Option<TruthTable>
        requires told { AreTold flat.now names self.now }
        requires name { name < names }
        ensures { result ≡ told_table flat.now name inputs }
    {
        let cell = self.cells.get(name.get() as usize)?;
        let table = flat.tables.get(CellId::new(cell))?;
        if table.inputs == inputs {
            Some(table)
        } else {
            None
        }
    }
}
