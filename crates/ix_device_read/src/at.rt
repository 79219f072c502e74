//! A struct of a message that is being taken.

ghost use Rattle.std.specs.Prelude.{◌≡◌, ◌<◌, ◌-◌, ◌%◌, ◌^◌, slice_index, length, map, IfOk};
ghost use Rattle.std.specs.Prelude.{if◌then◌else◌, Some, None};
ghost use Rattle.ix_message.specs.Records.{IfThere};
ghost use Rattle.std.specs.List.{AllByRecursion};
ghost use Rattle.ix_frame.specs.Sound.{sound_elements, sound_list, sound_struct, sound_text};
ghost use Rattle.ix_schema.specs.Said.{said, each_said, texts_said};
ghost use Rattle.ix_message_read.specs.Tells.{flag_number};
ghost use Rattle.ix_frame.specs.Objects.{u32_in, numbers_in, has_pointer};
ghost use Rattle.ix_frame.specs.Views.{object_of};
ghost use Rattle.ix_message.specs.Shape.{name, choice};
ghost use Rattle.ix_message.specs.Names.{the_text, the_number, option_with};
ghost use Rattle.ix_device_read.specs.Finish.{asked_at, below, known, each_alone, finish_at};
ghost use Rattle.ix_device_read.specs.Finish.{finish_each, finish_option};
ghost use Rattle.ix_device_read.specs.Named.{limit_of, AllNamed};
ghost use Rattle.ix_device_read.specs.Numbers.{name_text};
ghost use Rattle.ix_device_read.specs.Views.{sizes_of, Meets, MeetsWith, kind_word, field_word};
ghost use Rattle.ix_device_read.specs.declared.stop.Stop.TheVariants.{OutOfList};

use crate::choices::Choice;
use crate::context::{Context, Scope};
use crate::stop::Stop;
use crate::take::{Take, take_list};
use crate::walk::{KINDS, Walk};
use ix_frame::Obj;
use ix_num::{BelPinId, NameId};
use ix_rec::Items;

/// A struct of a message, its number in the table, and what stands around it.
#[derive(Clone, Copy)]
pub struct At<'a> {
    pub o: Obj<'a>,
    pub kind: usize,
    pub scope: Scope,
}

impl<'a> At<'a> {
    /// This field is out of its list.
    pub fn stop(&self, walk: &Walk, field: usize) -> Stop
        requires { self.now.kind < KINDS }
        ensures { result ≡ OutOfList self.now.kind field (slice_index walk.now self.now.kind - 1) }
    {
        let index = walk.count(self.kind).saturating_sub(1);
        Stop::OutOfList {
            kind: self.kind,
            field,
            index,
        }
    }

    /// The number of this data field.
    pub fn number(&self, field: u32) -> u32
        ensures { u32_in (object_of self.now.o) field ≡ result }
    {
        self.o.u32_at(field)
    }

    /// The name with the place in the string table that this data field has.
    pub fn name(&self, ctx: &Context<'_>, walk: &Walk, field: u32) -> Result<NameId, Stop>
        requires { self.now.kind < KINDS }
        ensures made { Meets (λ id. the_text (name_text ctx.now.names.now id)) result
            (asked_at (sizes_of ctx.now self.now.scope) walk.now self.now.kind
            (kind_word self.now.kind) (field_word self.now.kind field) name
            (u32_in (object_of self.now.o) field)) }
        ensures within { IfOk result (λ id. id < limit_of ctx.now) }
    {
        self.name_of(ctx, walk, field as usize, self.o.u32_at(field))
    }

    /// The name with this place in the string table.
    fn name_of(&self, ctx: &Context<'_>, walk: &Walk, field: usize, n: u32) -> Result<NameId, Stop>
        requires { self.now.kind < KINDS }
        ensures made { Meets (λ id. the_text (name_text ctx.now.names.now id)) result
            (asked_at (sizes_of ctx.now self.now.scope) walk.now self.now.kind
            (kind_word self.now.kind) (field_word self.now.kind field) name n) }
        ensures within { IfOk result (λ id. id < limit_of ctx.now) }
    {
        if (n as usize) < ctx.strings.len() {
            Ok(ctx.strings[n as usize])
        } else {
            Err(self.stop(walk, field))
        }
    }

    /// The number of this data field, where it is below the length of its list.
    pub fn index(&self, walk: &Walk, field: u32, limit: u32) -> Result<u32, Stop>
        requires { self.now.kind < KINDS }
        ensures exact { Meets the_number result
            (below walk.now self.now.kind (kind_word self.now.kind) (field_word self.now.kind field)
            limit (u32_in (object_of self.now.o) field)) }
        ensures same { IfOk result (λ n. u32_in (object_of self.now.o) field ≡ n) }
    {
        let n = self.o.u32_at(field);
        if n < limit {
            Ok(n)
        } else {
            Err(self.stop(walk, field as usize))
        }
    }

    /// The tag or enumerant of this data field.
    pub fn choice<T: Choice>(&self, ctx: &Context<'_>, walk: &Walk, field: u32) -> Result<T, Stop>
        requires { self.now.kind < KINDS }
        ensures { Meets (λ x. the_number (T.number x)) result
            (asked_at (sizes_of ctx.now self.now.scope) walk.now self.now.kind
            (kind_word self.now.kind) (field_word self.now.kind field) (choice T.most)
            (u32_in (object_of self.now.o) field % 2 ^ 16)) }
    {
        match T::of(self.o.tag_at(field)) {
            Some(x) => Ok(x),
            None => Err(self.stop(walk, field as usize)),
        }
    }

    /// How many structs the list behind this pointer has.
    pub fn count<T: Take>(&self, slot: u32) -> u32
        ensures { result ≡ length (each_said (said T.shape)
            (sound_elements (object_of self.now.o) slot).count
            (sound_elements (object_of self.now.o) slot) 0) }
    {
        self.o.sound_list(slot).len()
    }

    /// The structs of the list behind this pointer, which stand within this scope.
    pub fn list<T: Take>(
        &self,
        ctx: &Context<'_>,
        slot: u32,
        scope: Scope,
        walk: &mut Walk,
    ) -> Result<Items<T>, Stop>
        ensures made { MeetsWith (map (T.record_by ctx.now.names.now)) result walk.new
            (finish_each (finish_at T.shape (sizes_of ctx.now scope))
            (each_said (said T.shape) (sound_elements (object_of self.now.o) slot).count
            (sound_elements (object_of self.now.o) slot) 0) walk.old) }
        ensures named { IfOk result (AllByRecursion (T.named (limit_of ctx.now))) }
    {
        take_list(self.o.sound_list(slot), ctx, scope, walk)
    }

    /// The BEL pin of the site type around with this number.
    fn bel_pin(&self, walk: &Walk, field: usize, n: u32) -> Result<BelPinId, Stop>
        requires { self.now.kind < KINDS }
        ensures { Meets the_number result (below walk.now self.now.kind (kind_word self.now.kind)
            (field_word self.now.kind field) self.now.scope.bel_pins n) }
    {
        if n < self.scope.bel_pins {
            Ok(BelPinId::new(n))
        } else {
            Err(self.stop(walk, field))
        }
    }

    /// The BEL pins of the site type around that the list of numbers behind this pointer has, which
    /// is this field.
    pub fn bel_pins(
        &self,
        ctx: &Context<'_>,
        walk: &Walk,
        slot: u32,
        field: usize,
    ) -> Result<Items<BelPinId>, Stop>
        requires { self.now.kind < KINDS }
        ensures { Meets (map the_number) result
            (each_alone (below walk.now self.now.kind (kind_word self.now.kind)
            (field_word self.now.kind field) self.now.scope.bel_pins)
            (numbers_in (sound_list 4 (object_of self.now.o) slot))) }
    {
        let list = self.o.sound_numbers(slot);
        let mut found = Items::with_capacity(ctx.alloc, list.len() as usize)?;
        for i in 0..list.len() {
            let pin = match self.bel_pin(walk, field, list.at(i)) {
                Ok(pin) => pin,
                Err(stop) => return Err(stop),
            };
            found.push(pin)?;
        }
        Ok(found)
    }

    /// The names that the list of numbers behind this pointer has, which is this field.
    pub fn names(
        &self,
        ctx: &Context<'_>,
        walk: &Walk,
        slot: u32,
        field: usize,
    ) -> Result<Items<NameId>, Stop>
        requires { self.now.kind < KINDS }
        ensures made { Meets (map (λ id. the_text (name_text ctx.now.names.now id))) result
            (each_alone (asked_at (sizes_of ctx.now self.now.scope) walk.now self.now.kind
            (kind_word self.now.kind) (field_word self.now.kind field) name)
            (numbers_in (sound_list 4 (object_of self.now.o) slot))) }
        ensures named { IfOk result (AllNamed (limit_of ctx.now)) }
    {
        let list = self.o.sound_numbers(slot);
        let mut found = Items::with_capacity(ctx.alloc, list.len() as usize)?;
        for i in 0..list.len() {
            let id = match self.name_of(ctx, walk, field, list.at(i)) {
                Ok(id) => id,
                Err(stop) => return Err(stop),
            };
            found.push(id)?;
        }
        Ok(found)
    }

    /// The number, where it is below the length of its list.
    fn index_of(&self, walk: &Walk, field: usize, limit: u32, n: u32) -> Result<u32, Stop>
        requires { self.now.kind < KINDS }
        ensures { Meets the_number result (below walk.now self.now.kind (kind_word self.now.kind)
            (field_word self.now.kind field) limit n) }
    {
        if n < limit {
            Ok(n)
        } else {
            Err(self.stop(walk, field))
        }
    }

    /// The numbers of the list behind this pointer, which is this field, where each is below the
    /// length of its list.
    pub fn indexes(
        &self,
        ctx: &Context<'_>,
        walk: &Walk,
        slot: u32,
        field: usize,
        limit: u32,
    ) -> Result<Items<u32>, Stop>
        requires { self.now.kind < KINDS }
        ensures { Meets (map the_number) result
            (each_alone (below walk.now self.now.kind (kind_word self.now.kind)
            (field_word self.now.kind field) limit)
            (numbers_in (sound_list 4 (object_of self.now.o) slot))) }
    {
        let list = self.o.sound_numbers(slot);
        let mut found = Items::with_capacity(ctx.alloc, list.len() as usize)?;
        for i in 0..list.len() {
            let n = match self.index_of(walk, field, limit, list.at(i)) {
                Ok(n) => n,
                Err(stop) => return Err(stop),
            };
            found.push(n)?;
        }
        Ok(found)
    }

    /// How many numbers the list behind this pointer has.
    pub fn number_count(&self, slot: u32) -> u32
        ensures { result ≡ length (numbers_in (sound_list 4 (object_of self.now.o) slot)) }
    {
        self.o.sound_numbers(slot).len()
    }

    /// The Bool of this data field.
    pub fn flag(&self, field: u32) -> bool
        ensures { u32_in (object_of self.now.o) field % 2 ≡ flag_number result }
    {
        self.o.u32_at(field) % 2 == 1
    }

    /// The name that the text is.
    #[tactic(auto, using(std::proofs::lemmas::Option::get_or_from_slice_get))]
    fn text_of(&self, ctx: &Context<'_>, text: &str) -> Result<NameId, Stop>
        ensures made { Meets (name_text ctx.now.names.now) result
            (known (sizes_of ctx.now self.now.scope) text.now) }
        ensures within { IfOk result (λ id. id < limit_of ctx.now) }
    {
        match ctx.names.find(text) {
            Some(id) => Ok(id),
            None => Err(Stop::Unnamed),
        }
    }

    /// The name that the text behind this pointer is.
    pub fn text(&self, ctx: &Context<'_>, slot: u32) -> Result<NameId, Stop>
        ensures made { Meets (name_text ctx.now.names.now) result
            (known (sizes_of ctx.now self.now.scope) (sound_text (object_of self.now.o) slot)) }
        ensures within { IfOk result (λ id. id < limit_of ctx.now) }
    {
        self.text_of(ctx, self.o.sound_text(slot))
    }

    /// The names that the texts of the list behind this pointer are.
    pub fn texts(&self, ctx: &Context<'_>, slot: u32) -> Result<Items<NameId>, Stop>
        ensures made { Meets (map (name_text ctx.now.names.now)) result
            (each_alone (known (sizes_of ctx.now self.now.scope))
            (texts_said (sound_list 6 (object_of self.now.o) slot).count
            (sound_list 6 (object_of self.now.o) slot) 0)) }
        ensures named { IfOk result (AllNamed (limit_of ctx.now)) }
    {
        let list = self.o.sound_texts(slot);
        let mut found = Items::with_capacity(ctx.alloc, list.len() as usize)?;
        for i in 0..list.len() {
            let id = match self.text_of(ctx, list.sound_at(i)) {
                Ok(id) => id,
                Err(stop) => return Err(stop),
            };
            found.push(id)?;
        }
        Ok(found)
    }

    /// The struct behind this pointer, which stands within this scope.
    pub fn one<T: Take>(
        &self,
        ctx: &Context<'_>,
        slot: u32,
        scope: Scope,
        walk: &mut Walk,
    ) -> Result<T, Stop>
        ensures made { MeetsWith (T.record_by ctx.now.names.now) result walk.new
            (finish_at T.shape (sizes_of ctx.now scope)
            (said T.shape (sound_struct (object_of self.now.o) slot)) walk.old) }
        ensures named { IfOk result (T.named (limit_of ctx.now)) }
    {
        T::take(self.o.sound_obj(slot), ctx, scope, walk)
    }

    /// The same of a struct that isn't there where its pointer is zero.
    #[tactic(auto, unfolding(crate::specs::Finish::finish_option))]
    pub fn option<T: Take>(
        &self,
        ctx: &Context<'_>,
        slot: u32,
        scope: Scope,
        walk: &mut Walk,
    ) -> Result<Option<T>, Stop>
        ensures made { MeetsWith (option_with (T.record_by ctx.now.names.now)) result walk.new
            (finish_option (finish_at T.shape (sizes_of ctx.now scope))
            (if has_pointer (object_of self.now.o) slot
            then Some (said T.shape (sound_struct (object_of self.now.o) slot))
            else None) walk.old) }
        ensures named { IfOk result (IfThere (T.named (limit_of ctx.now))) }
    {
        if self.o.has(slot) {
            let one = self.one(ctx, slot, scope, walk)?;
            Ok(Some(one))
        } else {
            Ok(None)
        }
    }
}
