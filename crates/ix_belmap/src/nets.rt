//! The signal nets of port cells, and the cells on each net.

ghost use Rattle.std.specs.Prelude.{◌≡◌, ◌<◌, ℕ, [], Some, length, option_map, replicate};
ghost use Rattle.std.specs.Prelude.{slice_get, IfOk, OnOk};
ghost use Rattle.ix_first.specs.First.{value_of};
ghost use Rattle.ix_flat.specs.Range.{NumbersFit};
ghost use Rattle.ix_belmap.specs.Groups.{net_of_port};
ghost use Rattle.ix_belmap.specs.Marks.{AreRows, IsNetBelow, lists_of, with_cell, with_pin};

use ix_first::FirstById;
use ix_num::{CellId, Memory, NetId, NetRef};
use ix_rec::Flat;
use std::alloc::Global;

/// The signal net of each port cell, where it is on one.
pub(crate) fn port_nets(alloc: Global, flat: &Flat) -> Result<FirstById<NetId>, Memory>
    ensures { IfOk result (λ nets. (port : ℕ) → port < flat.now.ports
        → value_of nets port ≡ Some (net_of_port flat.now port)) }
{
    let mut nets = FirstById::new(alloc, flat.ports as usize)?;
    for ((cell, _), net) in flat.pins.iter() {
        if let NetRef::Signal(net) = net {
            nets.put(cell.get() as usize, *net);
        }
    }
    Ok(nets)
}

// A row without cells for each net.
fn empty_rows(alloc: Global, nets: usize) -> Result<Vec<Vec<CellId>>, Memory>
    ensures { IfOk result (λ rows. lists_of rows.items ≡ replicate nets []) }
{
    let mut rows = Vec::new(alloc);
    for _ in 0..nets {
        rows.push(Vec::new(alloc))?;
    }
    Ok(rows)
}

// Puts a cell behind the others of a row, where it isn't there already.
fn put(row: &mut Vec<CellId>, cell: CellId) -> Result<(), Memory>
    ensures { OnOk result (row.new.items ≡ with_cell row.old.items cell) }
{
    if let Some(last) = row.last() {
        if *last == cell {
            return Ok(());
        }
    }
    row.push(cell)?;
    Ok(())
}

// Puts a cell that isn't a port cell behind the others of the row of a net that it is on.
fn put_pin(rows: &mut Vec<Vec<CellId>>, ports: u32, cell: CellId, net: NetRef) -> Result<(), Memory>
    requires { IsNetBelow (length rows.now.items) net }
    ensures count { OnOk result (length rows.new.items ≡ length rows.old.items) }
    ensures rows { OnOk result ((n : ℕ) → slice_get (lists_of rows.new.items) n
        ≡ option_map (with_pin ports cell net n) (slice_get (lists_of rows.old.items) n)) }
{
    let NetRef::Signal(net) = net else {
        return Ok(());
    };
    if cell.get() >= ports {
        put(&mut rows[net.get() as usize], cell)?;
    }
    Ok(())
}

/// The cells on each signal net that aren't port cells, each once, in flat order.
pub(crate) fn inner_rows(alloc: Global, flat: &Flat) -> Result<Vec<Vec<CellId>>, Memory>
    requires { NumbersFit flat.now }
    ensures { IfOk result (λ rows. AreRows flat.now (lists_of rows.items)) }
{
    let mut rows = empty_rows(alloc, flat.nets.len())?;
    for ((cell, _), net) in flat.pins.iter() {
        put_pin(&mut rows, flat.ports, *cell, *net)?;
    }
    Ok(rows)
}
