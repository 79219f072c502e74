//! A struct of a message that is being taken.

ghost use Rattle.std.specs.Prelude.{◌≡◌, ◌<◌, ◌%◌, ◌-◌, ◌^◌, slice_index, length, nat_lt, IfOk};
ghost use Rattle.std.specs.List.{All};
ghost use Rattle.ix_frame.specs.Objects.{u32_in};
ghost use Rattle.ix_frame.specs.Views.{object_of, numbers_of};
ghost use Rattle.ix_message.specs.Names.{datum_of, the_number, the_text};
ghost use Rattle.ix_message.specs.Shape.{name};
ghost use Rattle.ix_message_write.specs.Table.{name_text};
ghost use Rattle.ix_take.specs.Views.{table_of, Asked, AskedEach};
ghost use Rattle.ix_take.specs.declared.stop.Stop.TheVariants.{OutOfList};

use crate::context::Context;
use crate::stop::Stop;
use crate::walk::{KINDS, Walk};
use ix_frame::{Numbers, Obj};
use ix_num::NameId;
use ix_rec::Items;
use std::alloc::Global;

/// A struct of a message, and its kind among those that are counted.
#[derive(Clone, Copy)]
pub struct At<'a> {
    /// The struct.
    pub o: Obj<'a>,
    /// Its kind.
    pub kind: usize,
}

impl<'a> At<'a> {
    /// This field is out of its list.
    pub fn stop(&self, walk: &Walk, field: usize) -> Stop
        requires { self.now.kind < KINDS }
        ensures { result ≡ OutOfList self.now.kind field (slice_index walk.now self.now.kind - 1) }
    {
        let index = walk.count(self.kind).saturating_sub(1);
        Stop::OutOfList {
            kind: self.kind,
            field,
            index,
        }
    }

    /// The name with the place in the string table that this data field has, or that the field is
    /// out of the table.
    pub fn name(&self, ctx: &Context<'_>, walk: &Walk, field: u32) -> Result<NameId, Stop>
        requires { self.now.kind < KINDS }
        ensures made { Asked (λ id. the_text (name_text ctx.now.names.now id)) result
            (nat_lt (u32_in (object_of self.now.o) field) (length (table_of ctx.now)))
            (datum_of (table_of ctx.now) name (u32_in (object_of self.now.o) field))
            (OutOfList self.now.kind field (slice_index walk.now self.now.kind - 1)) }
        ensures named { IfOk result (λ id. id < length ctx.now.names.now) }
    {
        let n = self.o.u32_at(field) as usize;
        if n < ctx.strings.len() {
            Ok(ctx.strings[n])
        } else {
            Err(self.stop(walk, field as usize))
        }
    }

    /// The tag or enumerant of this data field, where it is below so many, or that it isn't.
    pub fn tag(&self, walk: &Walk, field: u32, many: u16) -> Result<u16, Stop>
        requires { self.now.kind < KINDS }
        ensures made { Asked (λ n. the_number n) result
            (nat_lt (u32_in (object_of self.now.o) field % 2 ^ 16) many)
            (the_number (u32_in (object_of self.now.o) field % 2 ^ 16))
            (OutOfList self.now.kind field (slice_index walk.now self.now.kind - 1)) }
        ensures below { IfOk result (λ n. n < many) }
    {
        let n = self.o.tag_at(field);
        if n < many {
            Ok(n)
        } else {
            Err(self.stop(walk, field as usize))
        }
    }

    /// The index that this data field has, where it is below so many, or that it isn't.
    pub fn index(&self, walk: &Walk, field: u32, many: u32) -> Result<u32, Stop>
        requires { self.now.kind < KINDS }
        ensures made { Asked (λ n. the_number n) result
            (nat_lt (u32_in (object_of self.now.o) field) many)
            (the_number (u32_in (object_of self.now.o) field))
            (OutOfList self.now.kind field (slice_index walk.now self.now.kind - 1)) }
        ensures below { IfOk result (λ n. n < many) }
    {
        let n = self.o.u32_at(field);
        if n < many {
            Ok(n)
        } else {
            Err(self.stop(walk, field as usize))
        }
    }

    /// The numbers of a list behind the pointer field with this number, where each is below so
    /// many, or that one isn't.
    pub fn indexes(
        &self,
        alloc: Global,
        l: Numbers<'_>,
        walk: &Walk,
        field: usize,
        many: u32,
    ) -> Result<Items<u32>, Stop>
        requires { self.now.kind < KINDS }
        ensures made { AskedEach result (numbers_of l.entry) many
            (OutOfList self.now.kind field (slice_index walk.now self.now.kind - 1)) }
        ensures below { IfOk result (All (λ n. n < many)) }
    {
        let mut found = Items::with_capacity(alloc, l.len() as usize)?;
        for i in 0..l.len() {
            let n = l.at(i);
            if n >= many {
                return Err(self.stop(walk, field));
            }
            found.push(n)?;
        }
        Ok(found)
    }
}
