//! The table of names.

ghost use Rattle.std.specs.Prelude.{◌≡◌, ◌+◌, ◌-◌, ◌^◌, ◌<◌, ◌≤◌, ◌↔◌, [], Some, length, slice_get};
ghost use Rattle.std.specs.Prelude.{Contains, IfOk, IfSome, IsSome, OnErr, OnOk};
ghost use Rattle.ix_strings.specs.Names.{number_of, number_once_added, with_name, AllDiffer};
ghost use Rattle.ix_strings.specs.Names.{KeepsNumbers};

use indexmap::IndexSet;
use ix_num::{Memory, NameId};
use std::alloc::Global;
use std::marker::Model;

/// The names of a run, each once. A name's number is its place, from 0, in the order in which the
/// names were added, and a name keeps it.
#[derive(Drop)]
pub struct Names {
    alloc: Global,
    texts: IndexSet<String>,
}

impl Model for Names {
    ghost use Rattle.std.specs.Prelude.{List, ℕ, map, string_bytes};
    ghost use Rattle.ix_strings.specs.Names.{IsTable};

    ghost Value = { List (List ℕ) };

    ghost view = { λ n. map string_bytes n.texts.keys };

    ghost invariant = { λ n. IsTable (map string_bytes n.texts.keys) };
}

impl Names {
    /// A table without names. It takes its memory from the allocator as it grows.
    pub fn new(alloc: Global) -> Names
        ensures { result ≡ [] }
    {
        Names {
            alloc,
            texts: IndexSet::new(alloc),
        }
    }

    /// The number of the text: its own where it is one of the names, else the next one, under which
    /// it is added. The text is hashed once. The table grows, and after `Memory` it is as before.
    pub fn add(&mut self, text: &str) -> Result<NameId, Memory>
        requires { length self.old < 2 ^ 32 - 1 }

        ensures names { OnOk result (self.new ≡ with_name self.old text.now) }
        ensures number { IfOk result (λ id. id ≡ number_once_added self.old text.now) }
        ensures text { IfOk result (λ id. slice_get self.new id ≡ Some text.now) }
        ensures err { OnErr result (self.new ≡ self.old) }

        ensures keeps { KeepsNumbers self.old self.new }
        ensures no_shorter { length self.old ≤ length self.new }
        ensures one_more { length self.new ≤ length self.old + 1 }
        ensures differ { AllDiffer self.new }
    {
        let text = String::from_str(self.alloc, text)?;
        let (place, _) = self.texts.insert_full(text)?;
        Ok(NameId::new(place as u32))
    }

    /// The number of the text; none exactly where it isn't one of the names. The text is hashed
    /// once.
    pub fn find(&self, text: &str) -> Option<NameId>
        ensures number { result ≡ number_of self.now text.now }
        ensures found { IsSome result ↔ Contains self.now text.now }
        ensures text { IfSome result (λ id. slice_get self.now id ≡ Some text.now) }
        ensures within { IfSome result (λ id. id < length self.now) }
        ensures differ { AllDiffer self.now }
    {
        match self.texts.get_index_of(text) {
            Some(place) => Some(NameId::new(place as u32)),
            None => None,
        }
    }

    /// The text of the name with this number.
    pub fn name(&self, id: NameId) -> &str
        requires { id < length self.now }
        ensures text { slice_get self.now id ≡ Some result.now }
        ensures differ { AllDiffer self.now }
    {
        self.texts.as_slice()[id.get() as usize].as_str()
    }

    /// How many names there are. Their numbers are those below it.
    pub fn len(&self) -> u32
        ensures count { result ≡ length self.now }
        ensures differ { AllDiffer self.now }
    {
        self.texts.len() as u32
    }
}
