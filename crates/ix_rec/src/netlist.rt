//! The record of a logical netlist message. Names are numbers of the run's table of names.

use crate::device::Direction;
use crate::items::Items;
use ix_num::NameId;

/// What a logical netlist message says.
#[derive(Drop)]
pub struct NetlistRec {
    /// The netlist's name.
    pub name: NameId,
    /// The netlist's properties.
    pub prop_map: PropertyMap,
    /// The top instance.
    pub top_inst: CellInstance,
    /// The declarations of cells.
    pub cell_decls: Items<CellDeclaration>,
    /// The ports that declarations name.
    pub port_list: Items<Port>,
    /// The instances that cells name.
    pub inst_list: Items<CellInstance>,
    /// The cells that have an inside.
    pub cell_list: Items<Cell>,
}

/// An instance of a cell.
#[derive(Drop)]
pub struct CellInstance {
    /// Its name.
    pub name: NameId,
    /// Its declaration, as a place in the netlist's list of declarations.
    pub cell: u32,
    /// Its properties.
    pub prop_map: PropertyMap,
}

/// A cell as it is seen from outside.
#[derive(Drop)]
pub struct CellDeclaration {
    /// The cell type's name.
    pub name: NameId,
    /// Its ports, as places in the netlist's list of ports.
    pub ports: Items<u32>,
}

/// The inside of a cell.
#[derive(Drop)]
pub struct Cell {
    /// Its declaration, as a place in the netlist's list of declarations.
    pub index: u32,
    /// The instances in it, as places in the netlist's list of instances.
    pub insts: Items<u32>,
    /// The nets in it.
    pub nets: Items<Net>,
}

/// A net of a cell.
#[derive(Drop)]
pub struct Net {
    /// Its name.
    pub name: NameId,
    /// The port bits that it joins.
    pub port_insts: Items<PortInstance>,
}

/// A port bit that a net joins.
#[derive(Drop)]
pub struct PortInstance {
    /// The port, as a place in the netlist's list of ports.
    pub port: u32,
    /// Whether the port is a bit, or `idx` picks one of a bus.
    pub bus: PortIndexing,
    /// The place in the bus, from 0, which is the bit that the port's `bus_start` names. At a
    /// single bit it isn't looked at.
    pub idx: u32,
    /// Whose port it is.
    pub owner: PortOwner,
}

/// How a net names a port.
#[derive(Clone, Copy, PartialEq, Eq)]
pub enum PortIndexing {
    /// As a single bit.
    SingleBit,
    /// As a bit of a bus, by an index.
    Idx,
}

/// Whose port a net joins.
#[derive(Clone, Copy)]
pub enum PortOwner {
    /// The cell's own, seen from inside.
    ExtPort,
    /// An instance's, as a place in the netlist's list of instances.
    Inst(u32),
}

/// A port of a declaration.
#[derive(Drop)]
pub struct Port {
    /// Its name.
    pub name: NameId,
    /// Which way a signal goes, seen from the cell.
    pub dir: Direction,
    /// Whether it is a bit or a bus.
    pub kind: PortKind,
    /// The number of a bus's first bit. At a bit it isn't looked at.
    pub bus_start: u32,
    /// The number of a bus's last bit, which may be below the first. At a bit it isn't looked at.
    pub bus_end: u32,
    /// Its properties.
    pub prop_map: PropertyMap,
}

/// Whether a port is a bit or a bus.
#[derive(Clone, Copy, PartialEq, Eq)]
pub enum PortKind {
    /// A bit.
    Bit,
    /// A bus.
    Bus,
}

/// The properties of a thing. Of several with one key the first counts.
#[derive(Drop)]
pub struct PropertyMap {
    /// They, in the order of the file.
    pub entries: Items<Entry>,
}

/// A property.
#[derive(Drop)]
pub struct Entry {
    /// Its key.
    pub key: NameId,
    /// Its value.
    pub value: PropertyValue,
}

/// The value of a property.
#[derive(Clone, Copy)]
pub enum PropertyValue {
    /// A text.
    Text(NameId),
    /// An unsigned number.
    Int(u32),
    /// A truth value.
    Bool(bool),
}
