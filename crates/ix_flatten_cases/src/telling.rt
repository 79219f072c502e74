//! A flat design in words.

ghost use Rattle.std.specs.Prelude.{◌≤◌, length};

use ix_num::{CellId, Memory, NameId, NetRef};
use ix_rec::Flat;
use ix_strings::Names;
use std::alloc::Global;

// What stands before an item of a list.
fn put_gap(text: &mut String, first: bool) -> Result<(), Memory> {
    if first {
        text.push_str(" ")?;
    } else {
        text.push_str(", ")?;
    }
    Ok(())
}

// A name; `?` for a number that has none.
fn put_name(text: &mut String, names: &Names, name: NameId) -> Result<(), Memory> {
    if name.get() < names.len() {
        text.push_str(names.name(name))?;
    } else {
        text.push_str("?")?;
    }
    Ok(())
}

// The name of a cell; `?` for a number that no cell has.
fn put_cell(text: &mut String, names: &Names, flat: &Flat, cell: CellId) -> Result<(), Memory> {
    let place = cell.get() as usize;
    if place < flat.cells.len() {
        return put_name(text, names, flat.cells.at(place).name);
    }
    text.push_str("?")?;
    Ok(())
}

fn put_cells(text: &mut String, names: &Names, flat: &Flat) -> Result<(), Memory> {
    text.push_str(" cells")?;
    for i in 0..flat.cells.len() {
        put_gap(text, i == 0)?;
        let cell = flat.cells.at(i);
        put_name(text, names, cell.name)?;
        text.push_str(" ")?;
        put_name(text, names, cell.ty)?;
    }
    Ok(())
}

fn put_pin(
    text: &mut String,
    names: &Names,
    flat: &Flat,
    cell: CellId,
    pin: NameId,
) -> Result<(), Memory> {
    put_cell(text, names, flat, cell)?;
    text.push_str("/")?;
    put_name(text, names, pin)
}

fn put_nets(text: &mut String, names: &Names, flat: &Flat) -> Result<(), Memory> {
    text.push_str("; nets")?;
    for i in 0..flat.nets.len() {
        put_gap(text, i == 0)?;
        let net = flat.nets.at(i);
        put_name(text, names, net.name)?;
        text.push_str(" ")?;
        if let Some(driver) = net.driver {
            put_pin(text, names, flat, driver.cell, driver.pin)?;
        }
    }
    Ok(())
}

// The net of a pin; `?` for a number that no net has.
fn put_net(text: &mut String, names: &Names, flat: &Flat, net: NetRef) -> Result<(), Memory> {
    match net {
        NetRef::Gnd => text.push_str("GND")?,
        NetRef::Vcc => text.push_str("VCC")?,
        NetRef::Signal(net) => {
            let place = net.get() as usize;
            if place < flat.nets.len() {
                return put_name(text, names, flat.nets.at(place).name);
            }
            text.push_str("?")?;
        }
    }
    Ok(())
}

// Whether a text comes before another by its bytes.
fn is_before(one: &[u8], other: &[u8]) -> bool {
    for i in 0..one.len().min(other.len()) {
        if one[i] != other[i] {
            return one[i] < other[i];
        }
    }
    one.len() < other.len()
}

// Whether a name comes before another by its bytes; not where either is none.
fn is_name_before(names: &Names, one: NameId, other: NameId) -> bool {
    if one.get() >= names.len() || other.get() >= names.len() {
        return false;
    }
    is_before(names.name(one).as_bytes(), names.name(other).as_bytes())
}

// Where a pin goes into a list that is sorted by the bytes of names.
fn place_of(names: &Names, pins: &[NameId], pin: NameId) -> usize
    ensures { result ≤ length pins.now }
{
    for i in 0..pins.len() {
        if is_name_before(names, pin, pins[i]) {
            return i;
        }
    }
    pins.len()
}

// The pins of a cell that are on nets, sorted by the bytes of their names.
fn pins_of(alloc: Global, names: &Names, flat: &Flat, cell: CellId) -> Result<Vec<NameId>, Memory> {
    let mut pins = Vec::new(alloc);
    for ((other, pin), _) in flat.pins.from_cell(cell) {
        if *other != cell {
            break;
        }
        let place = place_of(names, &pins, *pin);
        pins.insert(place, *pin)?;
    }
    Ok(pins)
}

// Whether no pin was put before this cell's pins, and none is put by them.
fn put_pins_of(
    alloc: Global,
    text: &mut String,
    names: &Names,
    flat: &Flat,
    cell: CellId,
    first: bool,
) -> Result<bool, Memory> {
    let mut first = first;
    for pin in pins_of(alloc, names, flat, cell)? {
        put_gap(text, first)?;
        first = false;
        put_pin(text, names, flat, cell, pin)?;
        if let Some(net) = flat.pins.get(cell, pin) {
            text.push_str(" ")?;
            put_net(text, names, flat, net)?;
        }
    }
    Ok(first)
}

fn put_pins(alloc: Global, text: &mut String, names: &Names, flat: &Flat) -> Result<(), Memory> {
    text.push_str("; pins")?;
    let mut first = true;
    for i in 0..flat.cells.len() {
        let Ok(number) = u32::try_from(i) else {
            break;
        };
        first = put_pins_of(alloc, text, names, flat, CellId::new(number), first)?;
    }
    Ok(())
}

fn put_tables(text: &mut String, names: &Names, flat: &Flat) -> Result<(), Memory> {
    text.push_str("; tables")?;
    let mut first = true;
    for (cell, table) in flat.tables.iter() {
        put_gap(text, first)?;
        first = false;
        put_cell(text, names, flat, *cell)?;
        let inputs = table.inputs;
        let bits = table.bits;
        write!(text, " {inputs}:{bits:x}")?;
    }
    Ok(())
}

/// A flat design.
pub(crate) fn put_flat(
    alloc: Global,
    text: &mut String,
    names: &Names,
    flat: &Flat,
) -> Result<(), Memory> {
    put_cells(text, names, flat)?;
    let ports = flat.ports;
    write!(text, "; ports {ports}")?;
    put_nets(text, names, flat)?;
    put_pins(alloc, text, names, flat)?;
    put_tables(text, names, flat)
}
