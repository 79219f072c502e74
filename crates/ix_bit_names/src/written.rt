//! The written names of port bits.

ghost use Rattle.std.specs.Prelude.{◌≡◌, ◌+◌, ◌-◌, ◌^◌, ◌<◌, ◌≤◌, ◌++◌, length, IfOk, OnOk};
ghost use Rattle.std.specs.Prelude.{string_bytes};
ghost use Rattle.ix_strings.specs.Names.{KeepsNumbers};
ghost use Rattle.ix_hierarchy.specs.Fits.{NetlistFits};
ghost use Rattle.ix_hierarchy.specs.Hierarchy.{written};
ghost use Rattle.ix_hierarchy.specs.Lists.{AreWritten, IsOuterRow};
ghost use Rattle.ix_bit_rows.specs.Table.{AreRowsIn};
ghost use Rattle.ix_bit_names.specs.Bits.{AreNumbers, ArePortsNamed, Grows, NamesBit};

use ix_bit_rows::Rows;
use ix_first::FirstByKey;
use ix_hierarchy::add_name;
use ix_keys::Key;
use ix_num::{Memory, NameId};
use ix_rec::{NetlistRec, Port, PortKind};
use ix_strings::Names;
use std::alloc::Global;

// Puts the written name of a port's bit behind some text.
fn put_bit(text: &mut String, names: &Names, port: &Port, index: u32) -> Result<(), Memory>
    requires { port.now.name < length names.now }
    ensures { OnOk result (string_bytes text.new
        ≡ string_bytes text.old ++ written names.now port.now index) }
{
    text.push_str(names.name(port.name))?;
    if port.kind == PortKind::Bus {
        write!(text, "[{index}]")?;
    }
    Ok(())
}

// The written name of a port's bit.
fn bit_text(alloc: Global, names: &Names, port: &Port, index: u32) -> Result<String, Memory>
    requires { port.now.name < length names.now }
    ensures { IfOk result (λ text. string_bytes text ≡ written names.now port.now index) }
{
    let mut text = String::new(alloc);
    put_bit(&mut text, names, port, index)?;
    Ok(text)
}

// Adds the written name of a bit to the names.
fn add_bit(
    alloc: Global,
    rec: &NetlistRec,
    port: u32,
    index: u32,
    names: &mut Names,
    left: &mut u32,
) -> Result<NameId, Memory>
    requires named { ArePortsNamed names.old rec.now }
    requires within { port < length rec.now.port_list }
    requires room { length names.old + left.old < 2 ^ 32 - 1 }
    ensures name { IfOk result (λ id. NamesBit names.new rec.now
        (record { port = port; index = index }) id) }
    ensures grows { Grows names.old names.new left.old left.new }
{
    let text = bit_text(alloc, names, rec.port_list.at(port as usize), index)?;
    add_name(names, left, text.as_str())
}

// The number of a bit's written name: that of its port's name, or the one of the table, or a new
// one.
fn bit_name(
    alloc: Global,
    rec: &NetlistRec,
    port: u32,
    index: u32,
    table: &mut FirstByKey<NameId>,
    names: &mut Names,
    left: &mut u32,
) -> Result<NameId, Memory>
    requires named { ArePortsNamed names.old rec.now }
    requires within { port < length rec.now.port_list }
    requires room { length names.old + left.old < 2 ^ 32 - 1 }
    requires table { AreNumbers names.old rec.now table.old }
    ensures name { IfOk result (λ id. NamesBit names.new rec.now
        (record { port = port; index = index }) id) }
    ensures table { OnOk result (AreNumbers names.new rec.now table.new) }
    ensures grows { Grows names.old names.new left.old left.new }
{
    let its = rec.port_list.at(port as usize);
    if its.kind == PortKind::Bit {
        return Ok(its.name);
    }
    if let Some(name) = table.get(Key::new(port, index, 0)) {
        return Ok(name);
    }
    let name = add_bit(alloc, rec, port, index, names, left)?;
    table.put(Key::new(port, index, 0), name)?;
    Ok(name)
}

/// The written name of each row's bit, as the number of a name. Names of bits of buses become
/// names, as many as the count of those that may still be added falls. `Memory` is the only error.
pub fn written_names(
    alloc: Global,
    rec: &NetlistRec,
    rows: &Rows,
    names: &mut Names,
    left: &mut u32,
) -> Result<Vec<NameId>, Memory>
    requires fits { NetlistFits (length names.old) rec.now }
    requires rows { AreRowsIn rec.now IsOuterRow rows.now }
    requires room { length names.old + left.old < 2 ^ 32 - 1 }
    ensures written { IfOk result (λ written. AreWritten names.new rec.now rows.now.rows
        written.items) }
    ensures keeps { KeepsNumbers names.old names.new }
    ensures counted { length names.new + left.new ≤ length names.old + left.old }
{
    let mut table = FirstByKey::new(alloc);
    let mut written = Vec::new(alloc);
    for place in 0..rows.len() {
        let row = rows.at(place);
        written.push(bit_name(alloc, rec, row.port, row.index, &mut table, names, left)?)?;
    }
    Ok(written)
}
