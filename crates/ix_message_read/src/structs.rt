//! Structs behind a pointer, and messages.

ghost use Rattle.std.specs.Prelude.{◌≡◌, map};
ghost use Rattle.ix_frame.specs.Views.{object_of, segments_of};
ghost use Rattle.ix_message.specs.Reading.{table_slot, pointers_of};
ghost use Rattle.ix_message.specs.Message.{numbers_in_segments};
ghost use Rattle.ix_message_read.specs.Tells.{Tells, Says};
ghost use Rattle.ix_message_read.specs.Structs.{value_behind};

use crate::from_message::FromMessage;
use crate::texts::read_texts;
use ix_frame::{Budget, Frame, Obj};
use ix_rec::{Items, ReadFault};
use std::alloc::Global;

/// The struct behind this pointer, with all that its pointers lead to. Else the first fault of the
/// frame.
pub fn read_struct<'a, T: FromMessage<'a>>(
    alloc: Global,
    o: Obj<'a>,
    slot: u32,
    budget: &mut Budget,
) -> Result<T, ReadFault>
    ensures { Tells T.value result budget.new
        (value_behind T.shape (object_of o.entry) slot budget.old) }
{
    let inner = o.obj(slot, budget)?;
    T::read(alloc, inner, budget)
}

/// A message with its numbers as they stand in the file.
#[derive(Drop)]
pub struct Raw<'a, T> {
    /// The string table.
    pub table: Items<&'a str>,
    /// The root struct.
    pub root: T,
}

/// The message of a frame, its string table, which stands in this slot of the root, before all
/// else. Else the first fault of the frame.
#[tactic(auto, unfolding(ix_message::specs::Message::numbers_in_segments, ix_message::specs::Reading::root_at))]
pub fn read_message<'a, T: FromMessage<'a>>(
    alloc: Global,
    frame: &Frame<'a>,
    slot: u32,
) -> Result<Raw<'a, T>, ReadFault>
    requires { slot ≡ table_slot (pointers_of T.shape) }
    ensures { Says (λ raw. (map (λ t. t.now) raw.table, T.value raw.root)) result
        (numbers_in_segments T.shape (segments_of frame.now)) }
{
    let mut budget = Budget::new(frame);
    let root = frame.root(&mut budget)?;
    let table = read_texts(alloc, root, slot, &mut budget)?;
    let root = T::read(alloc, root, &mut budget)?;
    Ok(Raw { table, root })
}
