//! Adding the texts of a netlist to the names of the run.

ghost use Rattle.std.specs.Prelude.{◌≡◌, ◌+◌, ◌-◌, ◌^◌, ◌<◌, ◌≤◌, ◌++◌, ◌∷◌, [], length, Some};
ghost use Rattle.std.specs.Prelude.{slice_get, IfOk, OnOk};
ghost use Rattle.ix_device_read.specs.Loose.{with_names, AreNumbersOf};
ghost use Rattle.ix_frame.specs.Sound.{sound_text};
ghost use Rattle.ix_frame.specs.Views.{object_of};
ghost use Rattle.ix_message.specs.Netlist.{netlist};
ghost use Rattle.ix_schema.specs.Said.{table_said};
ghost use Rattle.ix_strings.specs.Names.{KeepsNumbers};

use ix_frame::Obj;
use ix_num::{Memory, NameId};
use ix_rec::Items;
use ix_strings::Names;
use ix_take::add_table;
use std::alloc::Global;

/// The names of a netlist.
#[derive(Drop)]
pub struct Named {
    /// Those of its string table, by their place.
    pub strings: Items<NameId>,
    /// That of the netlist.
    pub name: NameId,
}

/// Adds the texts of a netlist to the names: those of its string table, then the name of
/// the netlist itself.
pub fn add_names(alloc: Global, root: Obj<'_>, names: &mut Names) -> Result<Named, Memory>
    requires { length names.old + length (table_said netlist (object_of root)) + 1
        < 2 ^ 32 - 1 }
    ensures adds { OnOk result (names.new ≡ with_names names.old
        (table_said netlist (object_of root.entry)
        ++ sound_text (object_of root.entry) 0 ∷ [])) }
    ensures strings { IfOk result (λ named. AreNumbersOf names.new named.strings
        (table_said netlist (object_of root.entry))) }
    ensures name { IfOk result (λ named. slice_get names.new named.name
        ≡ Some (sound_text (object_of root.entry) 0)) }
    ensures keeps { KeepsNumbers names.old names.new }
    ensures most { length names.new ≤ length names.old
        + length (table_said netlist (object_of root.entry)) + 1 }
{
    let strings = add_table(alloc, root.sound_texts(3), names)?;
    let name = names.add(root.sound_text(0))?;
    Ok(Named { strings, name })
}
