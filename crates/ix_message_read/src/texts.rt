//! Lists of texts.

ghost use Rattle.std.specs.Prelude.{◌≡◌, map};
ghost use Rattle.ix_frame.specs.Views.{object_of};
ghost use Rattle.ix_message.specs.Reading.{texts_at, texts_from};
ghost use Rattle.ix_message_read.specs.Tells.{Tells};
ghost use Rattle.ix_frame.specs.Views.{text_elements};

use ix_frame::{Budget, Obj, Texts};
use ix_rec::{Items, ReadFault};
use std::alloc::Global;

/// The texts of a list, which are slices of the file. Else the first fault of the frame.
fn texts_of<'a>(
    alloc: Global,
    l: Texts<'a>,
    budget: &mut Budget,
) -> Result<Items<&'a str>, ReadFault>
    ensures { Tells (λ v. map (λ t. t.now) v) result budget.new
        (texts_from (text_elements l.entry).count (text_elements l.entry) 0 budget.old) }
{
    let mut found = Items::with_capacity(alloc, l.len() as usize)?;
    for i in 0..l.len() {
        let one = match l.at(i, budget) {
            Ok(text) => text,
            Err(fault) => return Err(ReadFault::Frame(fault)),
        };
        found.push(one)?;
    }
    Ok(found)
}

/// The texts of the list behind this pointer, which are slices of the file. Else the first fault of
/// the frame.
#[tactic(auto, unfolding(ix_message::specs::Reading::texts_at))]
pub fn read_texts<'a>(
    alloc: Global,
    o: Obj<'a>,
    slot: u32,
    budget: &mut Budget,
) -> Result<Items<&'a str>, ReadFault>
    ensures { Tells (λ v. map (λ t. t.now) v) result budget.new
        (texts_at (object_of o.entry) slot budget.old) }
{
    let l = o.texts(slot, budget)?;
    texts_of(alloc, l, budget)
}
