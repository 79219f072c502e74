//! How the rows are made.

ghost use Rattle.std.specs.Prelude.{◌≡◌, ◌<◌, ◌+◌, ◌++◌, ℕ, length, slice_set, IfOk, OnOk};
ghost use Rattle.ix_hierarchy.specs.Fits.{NetlistFits};
ghost use Rattle.ix_hierarchy.specs.Lists.{AreFirstCells, AreMet, AreAllRows};
ghost use Rattle.ix_bit_rows.specs.Table.{AreRowsIn};
ghost use Rattle.ix_port_bits.specs.Listed.{IsRow, is_wanted, row_of, named_rows, net_rows};

use ix_bit_rows::Rows;
use ix_first::number_of;
use ix_hierarchy::{Row, index_of};
use ix_num::Memory;
use ix_rec::{Cell, Net, NetlistRec, PortInstance, PortOwner};
use std::alloc::Global;

// Whether the row of a bit is wanted.
fn wanted(named: &PortInstance, own: bool) -> bool
    ensures { result ≡ is_wanted own named.now }
{
    match named.owner {
        PortOwner::ExtPort => own,
        PortOwner::Inst(_) => !own,
    }
}

// The row of a bit that a net names.
fn row_of_bit(named: &PortInstance, net: u32) -> Row
    ensures { result ≡ row_of net named.now }
{
    let instance = match named.owner {
        PortOwner::ExtPort => 0,
        PortOwner::Inst(instance) => instance,
    };
    Row {
        instance,
        port: named.port,
        index: index_of(named),
        net,
    }
}

// Puts the rows of a net.
fn put_net(rows: &mut Vec<Row>, net: &Net, number: u32, own: bool) -> Result<(), Memory>
    ensures { OnOk result (rows.new.items
        ≡ rows.old.items ++ named_rows own number net.now.port_insts) }
{
    for i in 0..net.port_insts.len() {
        let named = net.port_insts.at(i);
        if wanted(named, own) {
            rows.push(row_of_bit(named, number))?;
        }
    }
    Ok(())
}

// The rows of a cell as its nets name them, one after another.
fn rows_named(alloc: Global, cell: &Cell, own: bool) -> Result<Vec<Row>, Memory>
    ensures { IfOk result (λ rows. rows.items ≡ net_rows own 0 cell.now.nets) }
{
    let mut rows = Vec::new(alloc);
    for n in 0..cell.nets.len() {
        put_net(&mut rows, cell.nets.at(n), number_of(n)?, own)?;
    }
    Ok(rows)
}

// The rows that a cell's nets name, of the cell itself or of its instances.
fn rows_in(alloc: Global, cell: &Cell, own: bool) -> Result<Vec<Row>, Memory>
    ensures { IfOk result (λ rows. AreAllRows (IsRow own cell.now) rows.items) }
{
    let mut rows = rows_named(alloc, cell, own)?;
    rows.sort_unstable();
    rows.dedup();
    Ok(rows)
}

// Puts the rows of a cell behind the others.
fn put_cell(
    rows: &mut Vec<Row>,
    starts: &mut Vec<usize>,
    ends: &mut Vec<usize>,
    cell: usize,
    more: &[Row],
) -> Result<(), Memory>
    requires start { cell < length starts.old.items }
    requires end { cell < length ends.old.items }
    ensures rows { OnOk result (rows.new.items ≡ rows.old.items ++ more.now) }
    ensures starts { OnOk result (starts.new.items
        ≡ slice_set starts.old.items cell (length rows.old.items)) }
    ensures ends { OnOk result (ends.new.items
        ≡ slice_set ends.old.items cell (length rows.old.items + length more.now)) }
{
    starts[cell] = rows.len();
    rows.extend_from_slice(more)?;
    ends[cell] = rows.len();
    Ok(())
}

/// The rows of the cells of these declarations: of the cells' own bits, or of those of their
/// instances. `Memory` is the only error.
pub fn all_rows(
    alloc: Global,
    rec: &NetlistRec,
    cells: &[Option<u32>],
    met: &[u32],
    own: bool,
) -> Result<Rows, Memory>
    requires fits { (names : ℕ) × NetlistFits names rec.now }
    requires cells { AreFirstCells rec.now cells.now }
    requires met { AreMet rec.now met.now }
    ensures { IfOk result (λ rows. AreRowsIn rec.now (IsRow own) rows) }
{
    let mut rows = Vec::new(alloc);
    let mut starts = Vec::new(alloc);
    let mut ends = Vec::new(alloc);
    starts.resize(rec.cell_list.len(), 0usize)?;
    ends.resize(rec.cell_list.len(), 0usize)?;
    for declaration in met {
        if let Some(cell) = cells[*declaration as usize] {
            let more = rows_in(alloc, rec.cell_list.at(cell as usize), own)?;
            put_cell(&mut rows, &mut starts, &mut ends, cell as usize, &more)?;
        }
    }
    Ok(Rows::of(rows, starts, ends))
}
