//! A design, item by item.

use ix_cases::number;
use ix_num::{CellId, Memory, NameId, NetId, NetRef};
use ix_rec::{
    Cell, CellDeclaration, CellInstance, CellMap, Direction, Entry, Flat, FlatCell, FlatNet, Items,
    NetlistRec, PinMap, Port, PortKind, PropertyMap, PropertyValue,
};
use ix_strings::Names;
use std::alloc::Global;

/// A design: the netlist's properties, the ports of its top, and what it is without hierarchy.
#[derive(Drop)]
pub(crate) struct Design {
    pub(crate) properties: Items<Entry>,
    pub(crate) ports: Items<Port>,
    pub(crate) flat: Flat,
}

impl Design {
    /// A design without ports and cells.
    pub(crate) fn new(alloc: Global) -> Design {
        Design {
            properties: Items::new(alloc),
            ports: Items::new(alloc),
            flat: Flat {
                cells: Items::new(alloc),
                ports: 0,
                nets: Items::new(alloc),
                pins: PinMap::new(alloc),
                tables: CellMap::new(alloc),
                fixed: CellMap::new(alloc),
            },
        }
    }
}

// The word of this number of an item, from 0; empty where it has fewer.
fn word(item: &str, number: usize) -> &str {
    match item.split_whitespace().nth(number) {
        Some(word) => word,
        None => "",
    }
}

fn add(names: &mut Names, text: &str) -> Result<NameId, Memory> {
    if names.len() == u32::MAX {
        return Err(Memory);
    }
    names.add(text)
}

fn direction(word: &str) -> Direction {
    match word {
        "in" => Direction::Input,
        "out" => Direction::Output,
        _ => Direction::Inout,
    }
}

fn value(names: &mut Names, kind: &str, text: &str) -> Result<PropertyValue, Memory> {
    match kind {
        "int" => Ok(PropertyValue::Int(number(text))),
        "bool" => Ok(PropertyValue::Bool(text == "true")),
        _ => Ok(PropertyValue::Text(add(names, text)?)),
    }
}

// The properties from a word of an item on, at most eight.
fn properties(
    alloc: Global,
    names: &mut Names,
    item: &str,
    from: usize,
) -> Result<Items<Entry>, Memory> {
    let mut entries = Items::new(alloc);
    for i in 0..8usize {
        let key = word(item, from % 8 + 3 * i);
        if !key.is_empty() {
            let key = add(names, key)?;
            let kind = word(item, from % 8 + 3 * i + 1);
            let value = value(names, kind, word(item, from % 8 + 3 * i + 2))?;
            entries.push(Entry { key, value })?;
        }
    }
    Ok(entries)
}

fn port(alloc: Global, names: &mut Names, item: &str) -> Result<Port, Memory> {
    let entries = properties(alloc, names, item, 3)?;
    Ok(Port {
        name: add(names, word(item, 1))?,
        dir: direction(word(item, 2)),
        kind: PortKind::Bit,
        bus_start: 0,
        bus_end: 0,
        prop_map: PropertyMap { entries },
    })
}

fn bus(alloc: Global, names: &mut Names, item: &str) -> Result<Port, Memory> {
    let entries = properties(alloc, names, item, 5)?;
    Ok(Port {
        name: add(names, word(item, 1))?,
        dir: direction(word(item, 2)),
        kind: PortKind::Bus,
        bus_start: number(word(item, 3)),
        bus_end: number(word(item, 4)),
        prop_map: PropertyMap { entries },
    })
}

fn cell(names: &mut Names, name: &str, ty: &str) -> Result<FlatCell, Memory> {
    let name = add(names, name)?;
    let ty = add(names, ty)?;
    Ok(FlatCell { name, ty })
}

fn net_of(word: &str) -> NetRef {
    match word {
        "gnd" => NetRef::Gnd,
        "vcc" => NetRef::Vcc,
        _ => NetRef::Signal(NetId::new(number(word))),
    }
}

fn number_of(place: usize) -> Result<u32, Memory> {
    if place > u32::MAX as usize {
        return Err(Memory);
    }
    Ok(place as u32)
}

// Puts so many cells of a type, each with a pin on a net.
fn put_many(
    flat: &mut Flat,
    names: &mut Names,
    ty: &str,
    count: u32,
    pin: &str,
    net: &str,
) -> Result<(), Memory> {
    let pin = add(names, pin)?;
    for _ in 0..count {
        let place = CellId::new(number_of(flat.cells.len())?);
        flat.cells.push(cell(names, "", ty)?)?;
        flat.pins.insert(place, pin, net_of(net))?;
    }
    Ok(())
}

/// Puts an item into a design; a field that is none changes nothing.
pub(crate) fn put(
    alloc: Global,
    design: &mut Design,
    names: &mut Names,
    item: &str,
) -> Result<(), Memory> {
    match word(item, 0) {
        "port" => design.ports.push(port(alloc, names, item)?),
        "bus" => design.ports.push(bus(alloc, names, item)?),
        "netlist" => {
            design.properties = properties(alloc, names, item, 1)?;
            Ok(())
        }
        "ports" => {
            design.flat.ports = number(word(item, 1));
            Ok(())
        }
        "cell" => {
            let cell = cell(names, word(item, 1), word(item, 2))?;
            design.flat.cells.push(cell)
        }
        "net" => {
            let name = add(names, word(item, 1))?;
            design.flat.nets.push(FlatNet { name, driver: None })
        }
        "pin" => {
            let pin = add(names, word(item, 2))?;
            let cell = CellId::new(number(word(item, 1)));
            design.flat.pins.insert(cell, pin, net_of(word(item, 3)))
        }
        "members" => {
            let count = number(word(item, 2));
            put_many(
                &mut design.flat,
                names,
                word(item, 1),
                count,
                "I",
                word(item, 3),
            )
        }
        "outputs" => {
            let count = number(word(item, 1));
            put_many(
                &mut design.flat,
                names,
                "$PORT_OUT",
                count,
                "P",
                word(item, 2),
            )
        }
        _ => Ok(()),
    }
}

/// The netlist of a top with these ports.
pub(crate) fn netlist(
    alloc: Global,
    properties: Items<Entry>,
    ports: Items<Port>,
) -> Result<NetlistRec, Memory> {
    let name = NameId::new(0);
    let mut places = Items::new(alloc);
    for i in 0..ports.len() {
        places.push(number_of(i)?)?;
    }
    let mut cell_decls = Items::new(alloc);
    cell_decls.push(CellDeclaration {
        name,
        ports: places,
    })?;
    Ok(NetlistRec {
        name,
        prop_map: PropertyMap {
            entries: properties,
        },
        top_inst: CellInstance {
            name,
            cell: 0,
            prop_map: PropertyMap {
                entries: Items::new(alloc),
            },
        },
        cell_decls,
        port_list: ports,
        inst_list: Items::new(alloc),
        cell_list: Items::<Cell>::new(alloc),
    })
}
