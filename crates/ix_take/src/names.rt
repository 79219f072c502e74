//! Adding the texts of a string table to the names of the run.

ghost use Rattle.std.specs.Prelude.{◌≡◌, ◌+◌, ◌-◌, ◌^◌, ◌<◌, ◌≤◌, length, IfOk, OnOk};
ghost use Rattle.ix_device_read.specs.Loose.{with_names, AreNumbersOf};
ghost use Rattle.ix_frame.specs.Views.{text_elements};
ghost use Rattle.ix_schema.specs.Said.{texts_said};
ghost use Rattle.ix_strings.specs.Names.{KeepsNumbers};

use ix_frame::Texts;
use ix_num::{Memory, NameId};
use ix_rec::Items;
use ix_strings::Names;
use std::alloc::Global;

/// Adds each text of a string table, and gives their numbers, by their place in the table.
pub fn add_table(alloc: Global, l: Texts<'_>, names: &mut Names) -> Result<Items<NameId>, Memory>
    requires { length names.old + (text_elements l).count < 2 ^ 32 - 1 }
    ensures adds { OnOk result (names.new ≡ with_names names.old
        (texts_said (text_elements l.entry).count (text_elements l.entry) 0)) }
    ensures numbers { IfOk result (λ ids. AreNumbersOf names.new ids
        (texts_said (text_elements l.entry).count (text_elements l.entry) 0)) }
    ensures keeps { KeepsNumbers names.old names.new }
    ensures most { length names.new ≤ length names.old + (text_elements l.entry).count }
{
    let mut found = Items::with_capacity(alloc, l.len() as usize)?;
    for i in 0..l.len() {
        let id = match names.add(l.sound_at(i)) {
            Ok(id) => id,
            Err(memory) => return Err(memory),
        };
        found.push(id)?;
    }
    Ok(found)
}
