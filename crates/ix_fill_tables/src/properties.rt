//! Tables as properties.

ghost use Rattle.std.specs.Prelude.{◌≡◌, ◌<◌, ◌≤◌, ◌+◌, ◌-◌, ◌*◌, ◌^◌, ◌++◌, ◌∷◌, [], Some, true};
ghost use Rattle.std.specs.Prelude.{length, string_bytes, IfOk, OnOk};
ghost use Rattle.std.specs.Bool.{Decides};
ghost use Rattle.std.specs.Fmt.{digit_glyph};
ghost use Rattle.std.specs.FinMap as map;
ghost use Rattle.ix_legal.specs.TableKeys.{IsTableKey, table_key, table_bits};
ghost use Rattle.ix_phys_write.specs.Record.{IsPhysNamed};
ghost use Rattle.ix_strings.specs.Names.{KeepsNumbers};
ghost use Rattle.ix_fill_tables.specs.Completed.{HasTables};
ghost use Rattle.ix_fill_tables.specs.Filled.{TellsTable, AddsTable, AreAdded, HasSite};
ghost use Rattle.ix_fill_tables.specs.Filled.{HaveSites, fillings_of};

use crate::forced::Forced;
use crate::forcing::{ForcedBits, is_clash};
use ix_num::{Memory, NameId};
use ix_rec::{Items, Phys, Property, SiteInstance};
use ix_strings::Names;
use std::alloc::Global;

// Whether a key is a table's, or begins so.
fn is_table_key(key: &str) -> bool
    ensures { Decides result (IsTableKey key.now) }
{
    key.starts_with("TABLE/")
}

/// Whether a property of the netlist has the key of a table, or one that begins so.
pub fn has_tables(phys: &Phys, names: &Names) -> bool
    requires named { IsPhysNamed names.now phys.now }
    ensures { Decides result (HasTables names.now phys.now) }
{
    for i in 0..phys.properties.len() {
        if is_table_key(names.name(phys.properties.at(i).key)) {
            return true;
        }
    }
    false
}

// Writes a hexadecimal digit behind a text.
fn write_digit(text: &mut String, digit: u64) -> Result<(), Memory>
    requires { digit < 16 }
    ensures { OnOk result (string_bytes text.new
        ≡ string_bytes text.old ++ digit_glyph true digit ∷ []) }
{
    write!(text, "{digit:X}")?;
    Ok(())
}

// Writes the 16 hexadecimal digits of a table, the most significant first, in place of a text.
fn write_bits(text: &mut String, bits: u64) -> Result<(), Memory>
    ensures { OnOk result (table_bits (string_bytes text.new) ≡ Some bits) }
{
    text.clear();
    for i in 0..16u32 {
        write_digit(text, (bits >> (60 - 4 * i)) & 15)?;
    }
    Ok(())
}

// Writes the key of an element's table in place of a text.
fn write_key(text: &mut String, site: &str, element: u32) -> Result<(), Memory>
    ensures { OnOk result (string_bytes text.new ≡ table_key site.now element) }
{
    text.clear();
    write!(text, "TABLE/{site}/{element}")?;
    Ok(())
}

// The property that tells the table of an element. Its texts are added to the names; the given one
// is room for them.
fn table_property(
    names: &mut Names,
    text: &mut String,
    site: NameId,
    element: u32,
    bits: u64,
) -> Result<Property, Memory>
    requires site { site < length names.old }
    requires room { length names.old + 2 < 2 ^ 32 }
    ensures tells { IfOk result (TellsTable names.new site element bits) }
    ensures keeps { KeepsNumbers names.old names.new }
    ensures most { length names.new ≤ length names.old + 2 }
{
    write_key(text, names.name(site), element)?;
    let key = names.add(text.as_str())?;
    write_bits(text, bits)?;
    let value = names.add(text.as_str())?;
    Ok(Property { key, value })
}

// Adds the table of an element to the properties, where no bit is forced both ways.
fn add_table(
    instances: &Items<SiteInstance>,
    properties: &mut Items<Property>,
    names: &mut Names,
    text: &mut String,
    at: (u32, u32),
    bits: ForcedBits,
) -> Result<(), Memory>
    requires site { HasSite names.old instances.now at.0 }
    requires room { length names.old + 2 < 2 ^ 32 }
    ensures added { OnOk result (AddsTable names.new instances.now at.0 at.1 bits properties.old
        properties.new) }
    ensures keeps { KeepsNumbers names.old names.new }
    ensures most { length names.new ≤ length names.old + 2 }
{
    if is_clash(bits) {
        return Ok(());
    }
    let site = instances.at(at.0 as usize).site;
    let property = table_property(names, text, site, at.1, bits.ones)?;
    properties.push(property)?;
    Ok(())
}

/// Adds the tables of elements to the properties, but for those of which a bit is forced both ways.
/// `Memory` is the only error.
pub(crate) fn add_tables(
    alloc: Global,
    instances: &Items<SiteInstance>,
    properties: &mut Items<Property>,
    names: &mut Names,
    forced: &Forced,
) -> Result<(), Memory>
    requires sites { HaveSites names.old instances.now (map.entries forced.now) }
    requires room { length names.old + 2 * length (map.entries forced.now) < 2 ^ 32 - 1 }
    ensures added { OnOk result (AreAdded names.new instances.now properties.old
        (fillings_of (map.entries forced.now)) properties.new) }
    ensures keeps { KeepsNumbers names.old names.new }
    ensures most { length names.new ≤ length names.old + 2 * length (map.entries forced.now) }
{
    let mut text = String::new(alloc);
    for (at, bits) in forced.iter() {
        add_table(instances, properties, names, &mut text, *at, *bits)?;
    }
    Ok(())
}
