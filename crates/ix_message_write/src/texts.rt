//! Texts, and the list of the texts that a message uses.

ghost use Rattle.std.specs.Prelude.{◌≡◌, ◌<◌};
ghost use Rattle.std.specs.List.{All};
ghost use Rattle.ix_message.specs.Layout.{text_laid, texts_laid};
ghost use Rattle.ix_message.specs.Records.{IsText};
ghost use Rattle.ix_capw.specs.Growth.{IsInside, pointer_word};
ghost use Rattle.ix_message_write.specs.Table.{table_in, IsTableOf};
ghost use Rattle.ix_message_write.specs.Says.{Puts};

use crate::string_table::Strings;
use ix_capw::{At, BuildFault, Builder};
use ix_num::NameId;
use ix_strings::Names;

/// Puts a text, and leads the pointer in this slot to it.
pub fn write_text(builder: &mut Builder, at: At, slot: u16, text: &str) -> Result<(), BuildFault>
    requires inside { IsInside at builder.old }
    requires slot { slot < at.pointers }
    ensures { Puts (pointer_word at slot) (text_laid text.now) builder.old builder.new result }
{
    builder.set_text(at, slot, text)
}

/// Puts the string table, and leads the pointer in this slot to it.
pub fn write_strings(
    strings: &Strings,
    names: &Names,
    builder: &mut Builder,
    at: At,
    slot: u16,
) -> Result<(), BuildFault>
    requires table { IsTableOf names.now strings.now }
    requires inside { IsInside at builder.old }
    requires slot { slot < at.pointers }
    ensures { Puts (pointer_word at slot) (texts_laid (table_in names.now strings.now)) builder.old
        builder.new result }
{
    let used = strings.used();
    let count = used.len() as u32;
    let elements = match builder.texts(at, slot, count) {
        Ok(elements) => elements,
        Err(fault) => return Err(fault),
    };
    for i in 0..count {
        let text = names.name(used[i as usize]);
        match write_text(builder, elements.at(i), 0, text) {
            Ok(()) => {}
            Err(fault) => return Err(fault),
        }
    }
    Ok(())
}

/// Each name is UTF-8. A `str` is that by its type, but contracts see a table of names as lists of
/// bytes: looking each name up tells them so. It costs one look at each name.
pub fn names_are_utf8(names: &Names)
    ensures { All IsText names.now }
{
    for i in 0..names.len() {
        let _text = names.name(NameId::new(i));
    }
}
