//! Structs of a message.

ghost use Rattle.std.specs.Prelude.{◌≡◌};
ghost use Rattle.ix_message.specs.Layout.{section_of};
ghost use Rattle.ix_message.specs.Names.{uses, place_in, numbered};
ghost use Rattle.ix_capw.specs.Growth.{IsInside, IsSegment};
ghost use Rattle.ix_message_write.specs.Table.{table_in, IsTableOf};
ghost use Rattle.ix_message_write.specs.Says.{Notes, Writes};

use crate::string_table::Strings;
use ix_capw::{At, BuildFault, Builder};
use ix_strings::Names;
use std::alloc::Global;

/// How an item is written as a struct of a message. Names in it are numbers of the run's table of
/// names. It is a type beside the item's own, which stands in a crate that knows nothing of
/// messages.
pub trait StructWriter {
    ghost use Rattle.std.specs.Prelude.{ℕ, List};
    ghost use Rattle.ix_message.specs.Shape.{Struct, Value, Text};
    ghost use Rattle.ix_message.specs.Names.{Datum, place_in, numbered};
    ghost use Rattle.ix_message.specs.Layout.{section_of};
    ghost use Rattle.ix_message.proofs.Whole.{IsWide};

    /// What is written.
    type Item;

    ghost shape: { Struct };

    ghost record_by: { List Text → Self.Item → Value Datum shape };

    ghost is_named: { List Text → Self.Item → Type 0 };

    ghost WORDS: { ℕ };

    ghost POINTERS: { ℕ };

    /// The words of its data section.
    const WORDS: u16;

    /// The pointers of its pointer section.
    const POINTERS: u16;

    /// Takes note of the names that it uses, with all that its pointers lead to.
    fn note(item: &Self::Item, names: &Names, strings: &mut Strings) -> Result<(), BuildFault>
        requires named { is_named names.now item.now }
        requires table { IsTableOf names.now strings.old }
        ensures { Notes names.now strings.old strings.new
            (uses shape (record_by names.now item.now)) result };

    /// Writes its sections, and all that its pointers lead to.
    fn write(
        alloc: Global,
        item: &Self::Item,
        names: &Names,
        strings: &Strings,
        builder: &mut Builder,
        at: At,
    ) -> Result<(), BuildFault>
        requires named { is_named names.now item.now }
        requires table { IsTableOf names.now strings.now }
        requires inside { IsInside at builder.old }
        requires segment { IsSegment builder.old }
        requires words { at.words ≡ WORDS }
        requires pointers { at.pointers ≡ POINTERS }
        ensures { Writes at.start (section_of (table_in names.now strings.now) shape
            (numbered (place_in (table_in names.now strings.now)) shape
            (record_by names.now item.now))) builder.old builder.new result };

    ghost is_wide: { (names table : List Text) (x : Self.Item)
        → IsWide WORDS POINTERS (section_of table shape
        (numbered (place_in table) shape (record_by names x))) };
}
