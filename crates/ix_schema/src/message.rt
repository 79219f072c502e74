//! The first pass over a whole message.

ghost use Rattle.std.specs.Prelude.{◌≡◌, ◌<◌, length, true};
ghost use Rattle.ix_frame.specs.Views.{object_of, segments_of};
ghost use Rattle.ix_message.specs.Message.{numbers_in_segments};
ghost use Rattle.ix_message.specs.Reading.{table_slot, pointers_of};
ghost use Rattle.ix_message.specs.Shape.{Struct};
ghost use Rattle.ix_schema.specs.Forms.{is_form};
ghost use Rattle.ix_schema.specs.Splitting.{PassesMessage};

use crate::pass::pass_texts_behind;
use crate::table::Table;
use ix_frame::{Budget, Frame, Obj};
use ix_rec::ReadFault;
use std::alloc::Global;

impl Table {
    /// Passes over the message of a frame: over its string table, which stands in this slot of the
    /// root, and then over the root, which is the struct with this number. Tells the root, of which
    /// all is sound then, or the first fault of the frame. Takes memory only for the lists of
    /// branches that are open at a time.
    pub fn pass_message<'a>(
        &self,
        alloc: Global,
        n: usize,
        slot: u32,
        frame: &Frame<'a>,
    ) -> Result<Obj<'a>, ReadFault>
        requires { n < length self.now.structs.now }
        ensures { (s : Struct) → is_form self.now.structs.now n s ≡ true
            → slot ≡ table_slot (pointers_of s) → PassesMessage s result
            (numbers_in_segments s (segments_of frame.now)) }
    {
        let mut budget = Budget::new(frame);
        let root = frame.root(&mut budget)?;
        pass_texts_behind(root, slot, &mut budget)?;
        self.pass(alloc, n, root, &mut budget)?;
        Ok(root)
    }
}
