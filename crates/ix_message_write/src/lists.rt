//! Lists of structs.

ghost use Rattle.std.specs.Prelude.{◌≡◌, ◌<◌, map};
ghost use Rattle.std.specs.List.{All, flat_map};
ghost use Rattle.ix_message.specs.Layout.{section_of, structs_laid};
ghost use Rattle.ix_message.specs.Names.{uses, place_in, numbered};
ghost use Rattle.ix_capw.specs.Growth.{IsInside, pointer_word};
ghost use Rattle.ix_message_write.specs.Table.{table_in, IsTableOf};
ghost use Rattle.ix_message_write.specs.Says.{Notes, Puts};

use crate::string_table::Strings;
use crate::struct_writer::StructWriter;
use ix_capw::{At, BuildFault, Builder};
use ix_rec::Items;
use ix_strings::Names;
use std::alloc::Global;

/// Takes note of the names that each struct of a list uses, with all that its pointers lead to
/// before the next.
pub fn note_list<T: StructWriter>(
    list: &Items<T::Item>,
    names: &Names,
    strings: &mut Strings,
) -> Result<(), BuildFault>
    requires named { All (T.is_named names.now) list.now }
    requires table { IsTableOf names.now strings.old }
    ensures { Notes names.now strings.old strings.new
        (flat_map (uses T.shape) (map (T.record_by names.now) list.now)) result }
{
    for i in 0..list.len() {
        match T::note(list.at(i), names, strings) {
            Ok(()) => {}
            Err(fault) => return Err(fault),
        }
    }
    Ok(())
}

/// Puts a list of structs, each with all that its pointers lead to, and leads the pointer in this
/// slot to it.
pub fn write_list<T: StructWriter>(
    alloc: Global,
    list: &Items<T::Item>,
    names: &Names,
    strings: &Strings,
    builder: &mut Builder,
    at: At,
    slot: u16,
) -> Result<(), BuildFault>
    requires named { All (T.is_named names.now) list.now }
    requires table { IsTableOf names.now strings.now }
    requires inside { IsInside at builder.old }
    requires slot { slot < at.pointers }
    ensures { Puts (pointer_word at slot) (structs_laid
        (map (section_of (table_in names.now strings.now) T.shape)
        (map (numbered (place_in (table_in names.now strings.now)) T.shape)
        (map (T.record_by names.now) list.now)))) builder.old builder.new result }
{
    if list.len() >= 1 << 30 {
        return Err(BuildFault::TooLong);
    }
    let count = list.len() as u32;
    let elements = match builder.list(at, slot, count, T::WORDS, T::POINTERS) {
        Ok(elements) => elements,
        Err(fault) => return Err(fault),
    };
    for i in 0..count {
        match T::write(
            alloc,
            list.at(i as usize),
            names,
            strings,
            builder,
            elements.at(i),
        ) {
            Ok(()) => {}
            Err(fault) => return Err(fault),
        }
    }
    Ok(())
}
