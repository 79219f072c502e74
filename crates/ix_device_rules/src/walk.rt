//! A walk over a device in reading order.

ghost use Rattle.std.specs.Prelude.{◌≡◌, [], ◌∷◌, ◌-◌, ◌<◌, ◌+◌, ◌^◌, not, replicate, slice_index};
ghost use Rattle.std.specs.Prelude.{codes, OnOk};
ghost use Rattle.ix_message.specs.Indexes.{begun, asked};
ghost use Rattle.ix_keys.specs.Keys.{has_key, with_key};
ghost use Rattle.ix_device_rules.specs.Kinds.{kind_name, field_name};
ghost use Rattle.ix_device_rules.specs.Walks.{Walks, IsBroken};

use crate::kinds::{Field, KINDS, Kind};
use crate::stop::Stop;
use ix_keys::{Key, Keys};
use ix_rec::{Place, Word};
use std::alloc::Global;
use std::marker::Model;

/// How many structs of each kind were begun so far, in reading order.
#[derive(Drop)]
pub struct Walk {
    alloc: Global,
    counts: [u32; KINDS],
}

impl Model for Walk {
    ghost use Rattle.std.specs.Prelude.{List, ℕ};

    ghost Value = { List ℕ };

    ghost view = { λ walk. walk.counts };
}

/// The field of a struct of this kind doesn't fit.
fn broken(alloc: Global, kind: Kind, field: Field, index: u32) -> Stop
    ensures { IsBroken (codes (kind_name kind)) (codes (field_name field)) index result }
{
    let Ok(kind) = Word::new(alloc, kind.name()) else {
        return Stop::Memory;
    };
    let Ok(field) = Word::new(alloc, field.name()) else {
        return Stop::Memory;
    };
    Stop::Broken(Place::Item { kind, field, index })
}

impl Walk {
    /// Nothing was begun.
    pub fn new(alloc: Global) -> Walk
        ensures { result ≡ replicate 15 0 }
    {
        Walk {
            alloc,
            counts: [0; KINDS],
        }
    }

    /// Where memory is taken from.
    pub fn alloc(&self) -> Global {
        self.alloc
    }

    /// A struct of this kind is begun. Where there are more than 2^32 - 1 of a kind, memory is told
    /// to be wanting.
    #[tactic(auto, unfolding(crate::specs::Walks::walked))]
    pub fn begin(&mut self, kind: Kind) -> Result<(), Stop>
        ensures { Walks (begun (kind_name kind) ∷ []) self.old result self.new }
    {
        let place = kind.place();
        let count = self.counts[place];
        if count == u32::MAX {
            return Err(Stop::Memory);
        }
        self.counts[place] = count + 1;
        Ok(())
    }

    /// A field of the last struct of this kind is asked.
    #[tactic(auto, unfolding(crate::specs::Walks::walked))]
    pub fn ask(&self, kind: Kind, field: Field, fits: bool) -> Result<(), Stop>
        ensures { Walks (asked (kind_name kind) (field_name field) fits ∷ []) self.now result
            self.now }
    {
        if fits {
            return Ok(());
        }
        let index = self.counts[kind.place()].saturating_sub(1);
        Err(broken(self.alloc, kind, field, index))
    }

    /// A struct of this kind is begun, and its first field is asked.
    pub fn enter(&mut self, kind: Kind, field: Field, fits: bool) -> Result<(), Stop>
        ensures { Walks (begun (kind_name kind) ∷ asked (kind_name kind) (field_name field) fits
            ∷ []) self.old result self.new }
    {
        match self.begin(kind) {
            Ok(()) => self.ask(kind, field, fits),
            Err(stop) => Err(stop),
        }
    }

    /// A field of the last struct of this kind is asked: whether its key is new in the table, to
    /// which it is added.
    pub fn ask_new(
        &mut self,
        kind: Kind,
        field: Field,
        table: &mut Keys,
        key: Key,
    ) -> Result<(), Stop>
        ensures walks { Walks (asked (kind_name kind) (field_name field)
            (not (has_key table.old key)) ∷ []) self.old result self.new }
        ensures keys { OnOk result (table.new ≡ with_key table.old key) }
    {
        match table.add(key) {
            Ok(new) => self.ask(kind, field, new),
            Err(_) => Err(Stop::Memory),
        }
    }

    /// A struct of this kind is begun, whose first field is asked in this way.
    pub fn enter_new(
        &mut self,
        kind: Kind,
        field: Field,
        table: &mut Keys,
        key: Key,
    ) -> Result<(), Stop>
        ensures walks { Walks (begun (kind_name kind)
            ∷ asked (kind_name kind) (field_name field) (not (has_key table.old key)) ∷ []) self.old
            result self.new }
        ensures keys { OnOk result (table.new ≡ with_key table.old key) }
    {
        match self.begin(kind) {
            Ok(()) => self.ask_new(kind, field, table, key),
            Err(stop) => Err(stop),
        }
    }
}
