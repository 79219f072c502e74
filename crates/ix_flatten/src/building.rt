//! The flat design of a design in lists.

ghost use Rattle.std.specs.Prelude.{◌≡◌, ◌≢◌, ◌+◌, ◌^◌, ◌<◌, ◌≤◌, ℕ, List, length, map, IfOk, OnOk};
ghost use Rattle.std.specs.Prelude.{Option, None, Some, slice_get, option_and_then};
ghost use Rattle.std.specs.FinMap.{get};
ghost use Rattle.ix_hierarchy.specs.FlatDesign.{IsFlatOf};
ghost use Rattle.ix_joined.specs.Joining.{Known, IsJoined};
ghost use Rattle.ix_flatten.specs.Stages.{IsBuilt, AreCellTables, AreLeafTables, IsWithTable};

use crate::listing::Listed;
use ix_flat_lists::Named;
use ix_flat_nets::flat_nets;
use ix_joined::Joined;
use ix_num::{CellId, Memory};
use ix_pin_laws::designs_are_small;
use ix_rec::{CellMap, DeviceRec, Flat, Items, NetlistRec, TruthTable};
use ix_wiring::Wiring;
use std::alloc::Global;

// Gives a cell its table, where it has one.
fn put_table(
    of_cells: &mut CellMap<TruthTable>,
    cell: u32,
    table: Option<TruthTable>,
) -> Result<(), Memory>
    ensures { OnOk result (IsWithTable of_cells.old cell table of_cells.new) }
{
    if let Some(table) = table {
        of_cells.insert(CellId::new(cell), table)?;
    }
    Ok(())
}

// The table of each leaf that is a cell, by the number of the cell.
fn cell_tables(
    alloc: Global,
    joined: &Joined,
    ports: u32,
    leaves: &[u32],
    tables: &[Option<TruthTable>],
) -> Result<CellMap<TruthTable>, Memory>
    requires few { ports + length leaves.now < 2 ^ 32 }
    requires there { AreLeafTables joined.now leaves.now (length tables.now) }
    ensures { IfOk result (AreCellTables joined.now ports leaves.now tables.now) }
{
    let mut of_cells = CellMap::new(alloc);
    for k in 0..leaves.len() {
        let number = joined.instances[leaves[k] as usize].number;
        put_table(&mut of_cells, ports + k as u32, tables[number as usize])?;
    }
    Ok(of_cells)
}

/// The flat design of a design that keeps all rules.
///
/// # Errors
///
/// `Memory` alone.
pub(crate) fn build(
    alloc: Global,
    rec: &NetlistRec,
    device: &DeviceRec,
    listed: Listed,
    tables: &[Option<TruthTable>],
) -> Result<Flat, Memory>
    requires built { (known : Known) × IsBuilt known device.now rec.now listed tables.now }
    ensures flat { (known : Known) → IsBuilt known device.now rec.now listed tables.now
        → IfOk result (IsFlatOf device.now known.names rec.now) }
{
    // Port cells and leaves together are few.
    designs_are_small();
    let Listed {
        joined,
        bits,
        states,
        types,
        named,
    } = listed;
    let wiring = flat_nets(
        alloc,
        rec,
        &device.constants,
        &types,
        &joined,
        &bits,
        &states,
        &named,
    )?;
    let tables = cell_tables(alloc, &joined, named.ports, &named.leaves, tables)?;
    let Named { cells, ports, .. } = named;
    let Wiring { pins, nets } = wiring;
    Ok(Flat {
        cells: Items::from_vec(cells),
        ports,
        nets: Items::from_vec(nets),
        pins,
        tables,
        fixed: CellMap::new(alloc),
    })
}
