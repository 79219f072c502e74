//! From a struct of a sound frame to its part of the record.

ghost use Rattle.std.specs.Prelude.{ℕ, ◌<◌, map, IfOk};
ghost use Rattle.std.specs.List.{flat_map, All};
ghost use Rattle.ix_frame.specs.Objects.{element_of};
ghost use Rattle.ix_frame.specs.Views.{object_of, elements_of};
ghost use Rattle.ix_schema.specs.Said.{said, each_said};
ghost use Rattle.ix_take.specs.Views.{Takes};
ghost use Rattle.ix_take.specs.Walked.{walked};

use crate::stop::Stop;
use crate::walk::Walk;
use ix_frame::{List, Obj};
use ix_rec::Items;
use std::alloc::Global;

/// A part of a record that is made of a struct of a message, whose numbers are asked against a
/// context.
pub trait Take<C>: Sized + Drop {
    ghost use Rattle.std.specs.Prelude.{List as Listed, ℕ};
    ghost use Rattle.ix_frame.specs.Target.{Object};
    ghost use Rattle.ix_message.specs.Indexes.{Step};
    ghost use Rattle.ix_message.specs.Names.{Datum};
    ghost use Rattle.ix_message.specs.Shape.{Struct, Value};

    /// The structs that are counted.
    ghost structs: { Listed Struct };

    ghost shape: { Struct };

    ghost record_by: { C → Self → Value Datum shape };

    ghost named: { C → Self → Type 0 };

    /// What is to be known of the struct.
    ghost sound: { C → Object → Type 0 };

    /// What it stands for, and what its reading asks.
    ghost made: { C → Value ℕ shape → Value Datum shape };

    ghost asks: { C → Value ℕ shape → Listed Step };

    /// The part of the record that this struct makes, or the first of its numbers that is out of
    /// its list, in reading order.
    fn take(o: Obj<'_>, ctx: &C, walk: &mut Walk) -> Result<Self, Stop>
        requires { sound ctx.now (object_of o) }
        ensures made { Takes structs (record_by ctx.now) result walk.new
            (made ctx.now (said shape (object_of o.entry)))
            (walked structs walk.old (asks ctx.now (said shape (object_of o.entry)))) }
        ensures named { IfOk result (named ctx.now) };
}

/// The same of each struct of a list.
pub fn take_list<C, T: Take<C>>(
    alloc: Global,
    l: List<'_>,
    ctx: &C,
    walk: &mut Walk,
) -> Result<Items<T>, Stop>
    requires { (i : ℕ) → i < (elements_of l).count
        → T.sound ctx.now (element_of (elements_of l) i) }
    ensures made { Takes T.structs (map (T.record_by ctx.now)) result walk.new
        (map (T.made ctx.now)
        (each_said (said T.shape) (elements_of l.entry).count (elements_of l.entry) 0))
        (walked T.structs walk.old (flat_map (T.asks ctx.now)
        (each_said (said T.shape) (elements_of l.entry).count (elements_of l.entry) 0))) }
    ensures named { IfOk result (All (T.named ctx.now)) }
{
    let mut found = Items::with_capacity(alloc, l.len() as usize)?;
    for i in 0..l.len() {
        let one = match T::take(l.at(i), ctx, walk) {
            Ok(one) => one,
            Err(stop) => return Err(stop),
        };
        found.push(one)?;
    }
    Ok(found)
}
