//! Tables of the parts of site types and of tile types, made once.

ghost use Rattle.std.specs.Prelude.{◌≡◌, ◌++◌, map, IfOk, OnOk};
ghost use Rattle.ix_keys.specs.Keys.{key};
ghost use Rattle.ix_device_rules.specs.Tables.{SameKeys, EachKnown, KnowsBels, KnowsPins};
ghost use Rattle.ix_device_rules.specs.Tables.{KnowsWires};

use crate::number::number_of;
use ix_keys::{Key, Keys};
use ix_num::{Memory, NameId};
use ix_rec::{Bel, BelPin, Items, SiteType, TileType};
use std::alloc::Global;

/// A part of a numbered thing.
pub trait Part {
    ghost use Rattle.std.specs.Prelude.{◌≡◌, ℕ};
    ghost use Rattle.ix_keys.specs.Keys.{key};

    ghost part_of: { Self → ℕ };

    ghost name_of: { Self → ℕ };

    /// Its key within the thing of this number.
    fn key(&self, number: u32) -> Key
        ensures { result ≡ key number (part_of self.now) (name_of self.now) };
}

impl Part for Bel {
    ghost part_of = { λ bel. 0 };

    ghost name_of = { λ bel. bel.name };

    fn key(&self, number: u32) -> Key {
        Key::new(number, 0, self.name.get())
    }
}

impl Part for BelPin {
    ghost part_of = { λ pin. pin.bel };

    ghost name_of = { λ pin. pin.name };

    fn key(&self, number: u32) -> Key {
        Key::new(number, self.bel.get(), self.name.get())
    }
}

impl Part for NameId {
    ghost part_of = { λ wire. 0 };

    ghost name_of = { λ wire. wire };

    fn key(&self, number: u32) -> Key {
        Key::new(number, 0, self.get())
    }
}

/// Adds the parts of the thing of this number to the table.
fn add_parts<T: Part>(parts: &Items<T>, number: u32, table: &mut Keys) -> Result<(), Memory>
    ensures { OnOk result (SameKeys table.new
        (table.old ++ map (λ p. key number (T.part_of p) (T.name_of p)) parts.now)) }
{
    for i in 0..parts.len() {
        let key = parts.at(i).key(number);
        match table.add(key) {
            Ok(_) => {}
            Err(memory) => return Err(memory),
        }
    }
    Ok(())
}

/// The BELs of site types.
pub fn bels_of(alloc: Global, types: &Items<SiteType>) -> Result<Keys, Memory>
    ensures { IfOk result (λ table. EachKnown KnowsBels table types.now) }
{
    let mut table = Keys::new(alloc);
    for i in 0..types.len() {
        let number = number_of(i)?;
        match add_parts(&types.at(i).bels, number, &mut table) {
            Ok(()) => {}
            Err(memory) => return Err(memory),
        }
    }
    Ok(table)
}

/// The BEL pins of site types.
pub fn bel_pins_of(alloc: Global, types: &Items<SiteType>) -> Result<Keys, Memory>
    ensures { IfOk result (λ table. EachKnown KnowsPins table types.now) }
{
    let mut table = Keys::new(alloc);
    for i in 0..types.len() {
        let number = number_of(i)?;
        match add_parts(&types.at(i).bel_pins, number, &mut table) {
            Ok(()) => {}
            Err(memory) => return Err(memory),
        }
    }
    Ok(table)
}

/// The wires of tile types.
pub fn wires_of(alloc: Global, types: &Items<TileType>) -> Result<Keys, Memory>
    ensures { IfOk result (λ table. EachKnown KnowsWires table types.now) }
{
    let mut table = Keys::new(alloc);
    for i in 0..types.len() {
        let number = number_of(i)?;
        match add_parts(&types.at(i).wires, number, &mut table) {
            Ok(()) => {}
            Err(memory) => return Err(memory),
        }
    }
    Ok(table)
}
