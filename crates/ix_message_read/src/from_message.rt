//! Structs of a message, and lists of them.

ghost use Rattle.std.specs.Prelude.{◌≡◌, map};
ghost use Rattle.ix_frame.specs.Views.{object_of, elements_of};
ghost use Rattle.ix_message.specs.Reading.{value_at, each_from};
ghost use Rattle.ix_message_read.specs.Tells.{Tells};

use ix_frame::{Budget, List, Obj};
use ix_rec::{Items, ReadFault};
use std::alloc::Global;

/// A struct of a message, with its numbers as they stand in the file: a string number is a place in
/// the string table, and no index has been asked whether it is in its list.
pub trait FromMessage<'a>: Sized + Drop {
    ghost use Rattle.std.specs.Prelude.{ℕ};
    ghost use Rattle.ix_message.specs.Shape.{Struct, Value};

    ghost shape: { Struct };

    ghost value: { Self → Value ℕ shape };

    /// The struct at this place, with all that its pointers lead to, in reading order. What is read
    /// is taken from the budget. Else the first fault of the frame.
    fn read(alloc: Global, o: Obj<'a>, budget: &mut Budget) -> Result<Self, ReadFault>
        ensures { Tells Self.value result budget.new
            (value_at Self.shape (object_of o.entry) budget.old) };
}

/// The structs of a list, each with all that its pointers lead to before the next. Else the first
/// fault of the frame.
pub fn read_list<'a, T: FromMessage<'a>>(
    alloc: Global,
    l: List<'a>,
    budget: &mut Budget,
) -> Result<Items<T>, ReadFault>
    ensures { Tells (λ v. map T.value v) result budget.new
        (each_from (value_at T.shape) (elements_of l.entry).count (elements_of l.entry) 0
        budget.old) }
{
    let mut found = Items::with_capacity(alloc, l.len() as usize)?;
    for i in 0..l.len() {
        let one = match T::read(alloc, l.at(i), budget) {
            Ok(one) => one,
            Err(fault) => return Err(fault),
        };
        found.push(one)?;
    }
    Ok(found)
}
