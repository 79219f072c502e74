//! From a struct of a sound frame to its part of the record.

ghost use Rattle.std.specs.Prelude.{◌≡◌, map, length, IfOk};
ghost use Rattle.std.specs.List.{AllByRecursion};
ghost use Rattle.ix_frame.specs.Views.{object_of, elements_of};
ghost use Rattle.ix_schema.specs.Said.{said, each_said};
ghost use Rattle.ix_device_read.specs.Finish.{finish_at, finish_each};
ghost use Rattle.ix_device_read.specs.Named.{limit_of};
ghost use Rattle.ix_device_read.specs.Views.{sizes_of, MeetsWith};

use crate::context::{Context, Scope};
use crate::stop::Stop;
use crate::walk::Walk;
use ix_frame::{List, Obj};
use ix_rec::Items;

/// A part of a record that is made of a struct of a message.
pub trait Take: Sized + Drop {
    ghost use Rattle.std.specs.Prelude.{ℕ};
    ghost use Rattle.std.specs.Prelude.{List as Texts};
    ghost use Rattle.ix_message.specs.Shape.{Struct, Value, Text};
    ghost use Rattle.ix_message.specs.Names.{Datum};

    ghost shape: { Struct };

    ghost record_by: { Texts Text → Self → Value Datum shape };

    ghost named: { ℕ → Self → Type 0 };

    /// The part of the record that this struct makes, or the first of its numbers that is out of
    /// its list, in reading order.
    fn take(o: Obj<'_>, ctx: &Context<'_>, scope: Scope, walk: &mut Walk) -> Result<Self, Stop>
        ensures made { MeetsWith (record_by ctx.now.names.now) result walk.new
            (finish_at shape (sizes_of ctx.now scope) (said shape (object_of o.entry)) walk.old) }
        ensures named { IfOk result (named (limit_of ctx.now)) };
}

/// The same of each struct of a list.
pub fn take_list<T: Take>(
    l: List<'_>,
    ctx: &Context<'_>,
    scope: Scope,
    walk: &mut Walk,
) -> Result<Items<T>, Stop>
    ensures made { MeetsWith (map (T.record_by ctx.now.names.now)) result walk.new
        (finish_each (finish_at T.shape (sizes_of ctx.now scope))
        (each_said (said T.shape) (elements_of l.entry).count (elements_of l.entry) 0) walk.old) }
    ensures named { IfOk result (AllByRecursion (T.named (limit_of ctx.now))) }
{
    let mut found = Items::with_capacity(ctx.alloc, l.len() as usize)?;
    for i in 0..l.len() {
        let one = match T::take(l.at(i), ctx, scope, walk) {
            Ok(one) => one,
            Err(stop) => return Err(stop),
        };
        found.push(one)?;
    }
    Ok(found)
}
