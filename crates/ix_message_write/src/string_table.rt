//! The string table of a message that is being written: each text once, in the order of first use.
//! Texts are told by the numbers of their names, so none is compared.

ghost use Rattle.std.specs.Prelude.{◌≡◌, ◌<◌, ◌∷◌, [], length, map, IfOk};
ghost use Rattle.std.specs.List.{All};
ghost use Rattle.ix_message.specs.Names.{place_in};
ghost use Rattle.ix_message_write.specs.Table.{name_text, table_in, used_names, IsTableOf};
ghost use Rattle.ix_message_write.specs.Says.{Notes};

use ix_capw::BuildFault;
use ix_num::NameId;
use ix_strings::Names;
use std::alloc::{AllocError, Global};

// As many texts make a message too long.
const MOST_TEXTS: usize = 1 << 27;

/// The names that a message uses, in the order of their first use.
#[derive(Drop)]
pub struct Strings {
    // For each name of the run its place in the table and 1, or 0 where it isn't used yet.
    places: Vec<u32>,
    used: Vec<NameId>,
}

impl Strings {
    /// A table without texts, over these names. `Memory` is its only error.
    pub fn new(alloc: Global, names: &Names) -> Result<Strings, AllocError>
        ensures empty { IfOk result (λ strings. table_in names.now strings ≡ []) }
        ensures table { IfOk result (λ strings. IsTableOf names.now strings) }
    {
        let mut places = Vec::new(alloc);
        places.resize(names.len() as usize, 0)?;
        Ok(Strings {
            places,
            used: Vec::new(alloc),
        })
    }

    /// Takes note that a name is used.
    ///
    /// # Errors
    ///
    /// `TooLong` where there are too many texts for a message, `Memory`.
    pub fn note(&mut self, names: &Names, id: NameId) -> Result<(), BuildFault>
        requires named { id < length names.now }
        requires table { IsTableOf names.now self.old }
        ensures { Notes names.now self.old self.new (name_text names.now id ∷ []) result }
    {
        let place = id.get() as usize;
        if self.places[place] != 0 {
            return Ok(());
        }
        if self.used.len() >= MOST_TEXTS {
            return Err(BuildFault::TooLong);
        }
        match self.used.push(id) {
            Ok(()) => {}
            Err(_) => return Err(BuildFault::Memory),
        }
        self.places[place] = self.used.len() as u32;
        Ok(())
    }

    /// Takes note that names are used, in this order.
    ///
    /// # Errors
    ///
    /// `TooLong` where there are too many texts for a message, `Memory`.
    pub fn note_all(&mut self, names: &Names, ids: &[NameId]) -> Result<(), BuildFault>
        requires named { All (λ id. id < length names.now) ids.now }
        requires table { IsTableOf names.now self.old }
        ensures { Notes names.now self.old self.new (map (name_text names.now) ids.now) result }
    {
        for i in 0..ids.len() {
            match self.note(names, ids[i]) {
                Ok(()) => {}
                Err(fault) => return Err(fault),
            }
        }
        Ok(())
    }

    /// The place of a name in the table, or the number of the table's texts where it isn't there.
    pub fn place(&self, names: &Names, id: NameId) -> u32
        requires named { id < length names.now }
        requires table { IsTableOf names.now self.now }
        ensures { result ≡ place_in (table_in names.now self.now) (name_text names.now id) }
    {
        match self.places[id.get() as usize] {
            0 => self.used.len() as u32,
            place => place - 1,
        }
    }

    /// The names of the table, in order.
    pub fn used(&self) -> &[NameId]
        ensures { result.now ≡ used_names self.now }
    {
        self.used.as_slice()
    }
}
