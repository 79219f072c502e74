//! A logical netlist in one line.

use ix_num::NameId;
use ix_rec::{
    Cell, CellDeclaration, CellInstance, Direction, Entry, Items, Net, NetlistRec, Port,
    PortIndexing, PortInstance, PortKind, PortOwner, PropertyMap, PropertyValue,
};
use ix_strings::Names;
use std::alloc::AllocError;

/// Writes a name in quotes.
fn put_name(text: &mut String, names: &Names, id: NameId) -> Result<(), AllocError> {
    if id.get() < names.len() {
        text.push_str(" \"")?;
        text.push_str(names.name(id))?;
        text.push_str("\"")
    } else {
        text.push_str(" no name")
    }
}

/// Writes all names, in the order of their numbers.
pub fn put_names(text: &mut String, names: &Names) -> Result<(), AllocError> {
    for i in 0..names.len() {
        put_name(text, names, NameId::new(i))?;
    }
    Ok(())
}

fn put_numbers(text: &mut String, numbers: &Items<u32>) -> Result<(), AllocError> {
    for number in numbers.as_slice() {
        write!(text, " {number}")?;
    }
    Ok(())
}

fn put_value(text: &mut String, names: &Names, value: PropertyValue) -> Result<(), AllocError> {
    match value {
        PropertyValue::Text(id) => put_name(text, names, id),
        PropertyValue::Int(number) => write!(text, " {number}"),
        PropertyValue::Bool(true) => text.push_str(" true"),
        PropertyValue::Bool(false) => text.push_str(" false"),
    }
}

fn put_entry(text: &mut String, names: &Names, entry: &Entry) -> Result<(), AllocError> {
    text.push_str(" {")?;
    put_name(text, names, entry.key)?;
    put_value(text, names, entry.value)?;
    text.push_str(" }")
}

fn put_properties(
    text: &mut String,
    names: &Names,
    properties: &PropertyMap,
) -> Result<(), AllocError> {
    for entry in properties.entries.as_slice() {
        put_entry(text, names, entry)?;
    }
    Ok(())
}

fn put_instance(
    text: &mut String,
    names: &Names,
    instance: &CellInstance,
) -> Result<(), AllocError> {
    put_name(text, names, instance.name)?;
    write!(text, " of {}", instance.cell)?;
    put_properties(text, names, &instance.prop_map)
}

fn put_declarations(
    text: &mut String,
    names: &Names,
    declarations: &[CellDeclaration],
) -> Result<(), AllocError> {
    for declaration in declarations {
        text.push_str("; declaration")?;
        put_name(text, names, declaration.name)?;
        put_numbers(text, &declaration.ports)?;
    }
    Ok(())
}

fn word_of_direction(direction: Direction) -> &'static str {
    match direction {
        Direction::Input => "input",
        Direction::Output => "output",
        Direction::Inout => "inout",
    }
}

fn word_of_kind(kind: PortKind) -> &'static str {
    match kind {
        PortKind::Bit => "bit",
        PortKind::Bus => "bus",
    }
}

fn put_ports(text: &mut String, names: &Names, ports: &[Port]) -> Result<(), AllocError> {
    for port in ports {
        text.push_str("; port")?;
        put_name(text, names, port.name)?;
        let direction = word_of_direction(port.dir);
        let kind = word_of_kind(port.kind);
        write!(
            text,
            " {direction} {kind} {} {}",
            port.bus_start, port.bus_end
        )?;
        put_properties(text, names, &port.prop_map)?;
    }
    Ok(())
}

fn put_instances(
    text: &mut String,
    names: &Names,
    instances: &[CellInstance],
) -> Result<(), AllocError> {
    for instance in instances {
        text.push_str("; instance")?;
        put_instance(text, names, instance)?;
    }
    Ok(())
}

fn put_owner(text: &mut String, owner: PortOwner) -> Result<(), AllocError> {
    match owner {
        PortOwner::ExtPort => text.push_str(" own"),
        PortOwner::Inst(instance) => write!(text, " of {instance}"),
    }
}

fn put_pin(text: &mut String, pin: &PortInstance) -> Result<(), AllocError> {
    let bus = match pin.bus {
        PortIndexing::SingleBit => "bit",
        PortIndexing::Idx => "bus",
    };
    write!(text, " ({} {bus} {}", pin.port, pin.idx)?;
    put_owner(text, pin.owner)?;
    text.push_str(")")
}

fn put_net(text: &mut String, names: &Names, net: &Net) -> Result<(), AllocError> {
    text.push_str(", net")?;
    put_name(text, names, net.name)?;
    for pin in net.port_insts.as_slice() {
        put_pin(text, pin)?;
    }
    Ok(())
}

fn put_cells(text: &mut String, names: &Names, cells: &[Cell]) -> Result<(), AllocError> {
    for cell in cells {
        write!(text, "; cell {}", cell.index)?;
        put_numbers(text, &cell.insts)?;
        for net in cell.nets.as_slice() {
            put_net(text, names, net)?;
        }
    }
    Ok(())
}

/// Writes all that a netlist says.
pub fn put_netlist(
    text: &mut String,
    names: &Names,
    netlist: &NetlistRec,
) -> Result<(), AllocError> {
    text.push_str("netlist")?;
    put_name(text, names, netlist.name)?;
    put_properties(text, names, &netlist.prop_map)?;
    text.push_str("; top")?;
    put_instance(text, names, &netlist.top_inst)?;
    put_declarations(text, names, netlist.cell_decls.as_slice())?;
    put_ports(text, names, netlist.port_list.as_slice())?;
    put_instances(text, names, netlist.inst_list.as_slice())?;
    put_cells(text, names, netlist.cell_list.as_slice())
}

/// Writes how many declarations, ports, instances, cells and port bits of nets a netlist has, and
/// how many names there are.
pub fn put_counts(
    text: &mut String,
    names: &Names,
    netlist: &NetlistRec,
) -> Result<(), AllocError> {
    let mut pins = 0usize;
    for cell in netlist.cell_list.as_slice() {
        for net in cell.nets.as_slice() {
            pins = pins.saturating_add(net.port_insts.len());
        }
    }
    let declarations = netlist.cell_decls.len();
    let ports = netlist.port_list.len();
    write!(text, "{declarations} declarations, {ports} ports, ")?;
    let instances = netlist.inst_list.len();
    let cells = netlist.cell_list.len();
    write!(text, "{instances} instances, {cells} cells, ")?;
    write!(text, "{pins} port bits on nets, {} names", names.len())
}
