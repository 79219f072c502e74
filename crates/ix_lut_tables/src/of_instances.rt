//! The truth tables of LUT cells.

ghost use Rattle.std.specs.Prelude.{◌≡◌, ◌<◌, ◌≤◌, length, map, IfOk, IfSome, option_and_then};
ghost use Rattle.std.specs.Prelude.{Some};
ghost use Rattle.std.specs.Prelude.{slice_get};
ghost use Rattle.std.specs.List.{AllByRecursion};
ghost use Rattle.ix_rec.specs.declared.netlist.PropertyValue.TheVariants.{Text as text_value};
ghost use Rattle.ix_hierarchy.specs.Fits.{NetlistFits, IsEntryNamed, IsValueNamed, InstanceFits};
ghost use Rattle.ix_hierarchy.specs.FlatDesign.{init_number, table_of as table_seen};
ghost use Rattle.ix_lut_tables.specs.Tables.{entry_place, table_of_instance, AreLutTypes, IsRead};

use crate::types::lut_of;
use ix_first::FirstByKey;
use ix_keys::Key;
use ix_lut::{InitValue, read_init};
use ix_num::{Memory, NameId};
use ix_rec::{
    CellInstance, DeviceRec, Items, LutCell, NetlistRec, PropertyMap, PropertyValue, TruthTable,
};
use ix_strings::Names;
use std::alloc::Global;

// The place of the first entry of a key.
fn entry_of(properties: &PropertyMap, key: NameId) -> Option<usize>
    ensures place { result ≡ entry_place properties.now.entries key }
    ensures inside { IfSome result (λ p. p < length properties.now.entries) }
{
    for i in 0..properties.entries.len() {
        if properties.entries.at(i).key == key {
            return Some(i);
        }
    }
    None
}

// The bits that were read already, by text and number of inputs, so that no long text is read
// twice.
type ReadBits = FirstByKey<Option<u64>>;

// The bits that a name's text reads as.
fn text_bits(
    read: &mut ReadBits,
    names: &Names,
    text: NameId,
    inputs: u32,
) -> Result<Option<u64>, Memory>
    requires text { text < length names.now }
    requires least { 1 ≤ inputs }
    requires most { inputs ≤ 6 }
    requires read { IsRead names.now read.old }
    ensures bits { IfOk result (λ bits. bits ≡ init_number names.now inputs (text_value text)) }
    ensures read { IsRead names.now read.new }
{
    let key = Key::new(0, inputs, text.get());
    if let Some(bits) = read.get(key) {
        return Ok(bits);
    }
    let bits = read_init(InitValue::Text(names.name(text)), inputs).map(|table| table.bits);
    read.put(key, bits)?;
    Ok(bits)
}

// The bits that a property's value reads as.
fn value_bits(
    read: &mut ReadBits,
    names: &Names,
    value: &PropertyValue,
    inputs: u32,
) -> Result<Option<u64>, Memory>
    requires value { IsValueNamed (length names.now) value.now }
    requires least { 1 ≤ inputs }
    requires most { inputs ≤ 6 }
    requires read { IsRead names.now read.old }
    ensures bits { IfOk result (λ bits. bits ≡ init_number names.now inputs value.now) }
    ensures read { IsRead names.now read.new }
{
    match value {
        PropertyValue::Text(text) => text_bits(read, names, *text, inputs),
        PropertyValue::Int(number) => {
            Ok(read_init(InitValue::Int(*number), inputs).map(|table| table.bits))
        }
        PropertyValue::Bool(_) => Ok(None),
    }
}

// The table of an instance of a LUT type.
fn table_of(
    read: &mut ReadBits,
    names: &Names,
    lut: &LutCell,
    instance: &CellInstance,
) -> Result<Option<TruthTable>, Memory>
    requires named { AllByRecursion (IsEntryNamed (length names.now))
        instance.now.prop_map.entries }
    requires least { 1 ≤ length lut.now.input_pins }
    requires most { length lut.now.input_pins ≤ 6 }
    requires read { IsRead names.now read.old }
    ensures table { IfOk result (λ table. table ≡ table_seen names.now lut.now instance.now) }
    ensures read { IsRead names.now read.new }
{
    let inputs = lut.input_pins.len() as u32;
    let Some(place) = entry_of(&instance.prop_map, lut.init_param) else {
        return Ok(None);
    };
    let value = &instance.prop_map.entries.at(place).value;
    match value_bits(read, names, value, inputs)? {
        Some(bits) => Ok(Some(TruthTable { bits, inputs })),
        None => Ok(None),
    }
}

// The table of an instance, of whatever type.
fn table_at(
    read: &mut ReadBits,
    names: &Names,
    rec: &NetlistRec,
    device: &DeviceRec,
    types: &FirstByKey<u32>,
    instance: &CellInstance,
) -> Result<Option<TruthTable>, Memory>
    requires fits { InstanceFits (length names.now) rec.now instance.now }
    requires types { AreLutTypes device.now types.now }
    requires read { IsRead names.now read.old }
    ensures table { IfOk result (λ table. table
        ≡ table_of_instance names.now device.now rec.now instance.now) }
    ensures read { IsRead names.now read.new }
{
    let ty = rec.cell_decls.at(instance.cell as usize).name;
    match lut_of(device, types, ty) {
        Some(place) => {
            let lut = device.lut_definitions.lut_cells.at(place as usize);
            table_of(read, names, lut, instance)
        }
        None => Ok(None),
    }
}

/// The truth table of each instance of the netlist's list as a LUT cell; none where its type isn't
/// a LUT type, and where its INIT is absent or has no reading. A text is read once for a number of
/// inputs, whatever the number of instances that have it.
///
/// # Errors
///
/// Want of memory.
pub fn tables(
    alloc: Global,
    rec: &NetlistRec,
    device: &DeviceRec,
    types: &FirstByKey<u32>,
    names: &Names,
) -> Result<Vec<Option<TruthTable>>, Memory>
    requires fits { NetlistFits (length names.now) rec.now }
    requires types { AreLutTypes device.now types.now }
    ensures { IfOk result (λ tables. tables.items
        ≡ map (table_of_instance names.now device.now rec.now) rec.now.inst_list) }
{
    let mut read = FirstByKey::new(alloc);
    let mut tables = Vec::new(alloc);
    for i in 0..rec.inst_list.len() {
        let instance = rec.inst_list.at(i);
        tables.push(table_at(&mut read, names, rec, device, types, instance)?)?;
    }
    Ok(tables)
}
