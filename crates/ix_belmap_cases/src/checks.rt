//! Whether what a case gives fulfils the conditions of a call.

ghost use Rattle.std.specs.Prelude.{◌≡◌, ◌<◌, ℕ, None, Some, IsTrue, length, slice_get};
ghost use Rattle.std.specs.FinMap.{entries};
ghost use Rattle.std.specs.List.{AllByRecursion};
ghost use Rattle.ix_rec.specs.declared.device.DeviceRec.{DeviceRec as RecSeen};
ghost use Rattle.ix_rec.specs.declared.flow.FlatCell.{FlatCell as CellSeen};
ghost use Rattle.ix_rec.specs.declared.flow.FlatNet.{FlatNet as NetSeen};
ghost use Rattle.ix_flat.specs.Range.{IsCellOf, IsInRange, IsNamed, IsNetOf};
ghost use Rattle.ix_belmap.specs.Pins.{TopFits, bits_of_kind, cells_of_port, port_bits};

use ix_num::{CellId, NameId, NetRef};
use ix_rec::{Direction, Flat, FlatCell, FlatNet, Items, NetlistRec, Port, PortKind};

// Whether the names of cells and their types are among so many.
fn cells_named(cells: &Items<FlatCell>, names: u32) -> bool
    ensures { IsTrue result → (q : ℕ) (cell : CellSeen) → slice_get cells.now q ≡ Some cell
        → (cell.name < names) × (cell.ty < names) }
{
    for i in 0..cells.len() {
        let cell = cells.at(i);
        if cell.name.get() >= names || cell.ty.get() >= names {
            return false;
        }
    }
    true
}

// Whether the names of nets are among so many, and no driver is told.
fn nets_fit(nets: &Items<FlatNet>, names: u32) -> bool
    ensures { IsTrue result → (n : ℕ) (net : NetSeen) → slice_get nets.now n ≡ Some net
        → (net.name < names) × (net.driver ≡ None) }
{
    for i in 0..nets.len() {
        let net = nets.at(i);
        if net.name.get() >= names || net.driver.is_some() {
            return false;
        }
    }
    true
}

// Whether a pin is one of a cell and a net of the design, its name among so many.
fn pin_fits(flat: &Flat, names: u32, cell: CellId, pin: NameId, net: NetRef) -> bool
    ensures { IsTrue result → IsCellOf flat.now cell × IsNetOf flat.now net × (pin < names) }
{
    if cell.get() as usize >= flat.cells.len() || pin.get() >= names {
        return false;
    }
    match net {
        NetRef::Gnd | NetRef::Vcc => true,
        NetRef::Signal(net) => (net.get() as usize) < flat.nets.len(),
    }
}

// Whether all pins are.
fn pins_fit(flat: &Flat, names: u32) -> bool
    ensures { IsTrue result → AllByRecursion
        (λ entry. IsCellOf flat.now entry.0.0 × IsNetOf flat.now entry.1 × (entry.0.1 < names))
        (entries flat.now.pins) }
{
    for ((cell, pin), net) in flat.pins.iter() {
        if !pin_fits(flat, names, *cell, *pin, *net) {
            return false;
        }
    }
    true
}

/// Whether all numbers of a flat design without tables, drivers and fixed ports are in range.
pub(crate) fn is_design(flat: &Flat, names: u32) -> bool
    ensures range { IsTrue result → (rec : RecSeen) → IsInRange rec flat.now }
    ensures named { IsTrue result → IsNamed names flat.now }
{
    if flat.ports as usize > flat.cells.len() {
        return false;
    }
    if flat.tables.len() > 0 || flat.fixed.len() > 0 {
        return false;
    }
    if !cells_named(&flat.cells, names) {
        return false;
    }
    if !nets_fit(&flat.nets, names) {
        return false;
    }
    pins_fit(flat, names)
}

/// Whether the top of a netlist and its ports are there.
pub(crate) fn top_fits(design: &NetlistRec) -> bool
    ensures { IsTrue result → TopFits design.now }
{
    let top = design.top_inst.cell as usize;
    if top >= design.cell_decls.len() {
        return false;
    }
    let ports = &design.cell_decls.at(top).ports;
    for i in 0..ports.len() {
        if *ports.at(i) as usize >= design.port_list.len() {
            return false;
        }
    }
    true
}

// How many bits of a port are port cells.
fn cells_of(port: &Port) -> u64
    ensures { result
        ≡ cells_of_port port.now.dir
        (bits_of_kind port.now.kind port.now.bus_start port.now.bus_end) }
{
    match port.dir {
        Direction::Inout => 0,
        Direction::Input | Direction::Output => match port.kind {
            PortKind::Bit => 1,
            PortKind::Bus => u64::from(port.bus_start.abs_diff(port.bus_end)) + 1,
        },
    }
}

/// Whether the top's inputs and outputs have so many bits.
pub(crate) fn has_bits(design: &NetlistRec, count: u32) -> bool
    requires { TopFits design.now }
    ensures { IsTrue result → length (port_bits design.now) ≡ count }
{
    let mut left = u64::from(count);
    let top = design.cell_decls.at(design.top_inst.cell as usize);
    for i in 0..top.ports.len() {
        let cells = cells_of(design.port_list.at(*top.ports.at(i) as usize));
        if cells > left {
            return false;
        }
        left -= cells;
    }
    left == 0
}
