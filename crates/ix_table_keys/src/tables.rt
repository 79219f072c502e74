//! The tables of LUT elements.

ghost use Rattle.std.specs.Prelude.{◌≡◌, ◌<◌, Some, slice_get, string_bytes, IfOk, OnOk};
ghost use Rattle.std.specs.Prelude.{length};
ghost use Rattle.ix_legal.specs.Legal.{IsSound};
ghost use Rattle.ix_legal.specs.TableKeys.{table_key};
ghost use Rattle.ix_message.specs.Shape.{Text};
ghost use Rattle.ix_table_keys.specs.Tables.{AreTableKeys, IsNamedThere, TellsTable};

use crate::places::{PlacesByName, properties_by_key};
use ix_named_there::table_bits_of;
use ix_num::{Memory, NameId};
use ix_rec::Phys;
use ix_strings::Names;
use std::alloc::Global;

/// The tables of a netlist's LUT elements, found by site and element.
#[derive(Drop)]
pub struct TableKeys {
    // The first property of each key, by the number of the key's name.
    pub(crate) properties: PlacesByName,
}

// Writes the key of an element's table.
fn write_key(key: &mut String, site: &str, element: u32) -> Result<(), Memory>
    ensures { OnOk result (string_bytes key.new ≡ table_key site.now element) }
{
    key.clear();
    write!(key, "TABLE/{site}/{element}")?;
    Ok(())
}

impl TableKeys {
    /// The tables of a netlist. `Memory` is the only error. It takes 8 bytes a name.
    pub fn new(alloc: Global, phys: &Phys, names: &Names) -> Result<TableKeys, Memory>
        requires sound { IsSound names.now phys.now }
        ensures tables { IfOk result (AreTableKeys names.now phys.now) }
    {
        let properties = properties_by_key(alloc, &phys.properties, names.len())?;
        Ok(TableKeys { properties })
    }

    /// The bits of the table of an element; none exactly where it has no table. The text is room
    /// for the table's key, which is hashed once; `Memory` is answered where it can't grow, and is
    /// the only error.
    ///
    /// The netlist is one that keeps L1, and the site's name is one of the table of names.
    pub fn bits(
        &self,
        phys: &Phys,
        names: &Names,
        key: &mut String,
        site: NameId,
        element: u32,
    ) -> Result<Option<u64>, Memory>
        requires sound { IsSound names.now phys.now }
        requires named { IsNamedThere names.now phys.now }
        requires tables { AreTableKeys names.now phys.now self.now }
        requires site { site < length names.now }
        ensures table { IfOk result (TellsTable names.now phys.now site element) }
    {
        write_key(key, names.name(site), element)?;
        let Some(name) = names.find(key.as_str()) else {
            return Ok(None);
        };
        match self.properties.get(name.get() as usize) {
            None => Ok(None),
            Some(place) => {
                let value = phys.properties.at(place as usize).value;
                Ok(table_bits_of(names.name(value)))
            }
        }
    }
}
