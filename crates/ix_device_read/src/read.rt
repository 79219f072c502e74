//! Reading device resources.

ghost use Rattle.std.specs.Prelude.{◌≡◌, ◌+◌, ◌-◌, ◌^◌, ◌<◌, ◌≤◌, ◌++◌, map, length, IfOk};
ghost use Rattle.ix_frame.specs.Views.{object_of, segments_of};
ghost use Rattle.ix_message.specs.Device.{device};
ghost use Rattle.ix_message.specs.Message.{numbers_in_segments};
ghost use Rattle.ix_message.specs.Names.{Datum};
ghost use Rattle.ix_strings.specs.Names.{KeepsNumbers};
ghost use Rattle.ix_rec.specs.Ranges.{IndexesFit};
ghost use Rattle.ix_schema.specs.Said.{said, table_said};
ghost use Rattle.ix_schema.specs.Splitting.{PassesMessage};
ghost use Rattle.ix_device_read.specs.Adding.{texts_in, AddsExactly};
ghost use Rattle.ix_device_read.specs.Faults.{TellsField};
ghost use Rattle.ix_device_read.specs.Long.{ListsWithin};
ghost use Rattle.ix_device_read.specs.Loose.{loose_texts, Adds, AreNumbersOf, HasRoom};
ghost use Rattle.ix_device_read.specs.Named.{limit, DeviceNamed};
ghost use Rattle.ix_device_read.specs.Numbers.{name_text};
ghost use Rattle.ix_device_read.specs.Premises.{TextsKnown, structs_in};
ghost use Rattle.ix_device_read.specs.Reading.{reading_in_segments, record_unless_bad, IsReading};
ghost use Rattle.ix_device_read.specs.Records.{device_record};

use crate::device::take_device;
use crate::intern::{HasTexts, add_table_behind, add_text_behind};
use crate::stop::Stop;
use ix_frame::{Frame, Obj};
use ix_num::{Memory, NameId};
use ix_rec::{DeviceRec, Items, LutDefinitions, Place, ReadFault, Word};
use ix_schema::device_table;
use ix_strings::Names;
use std::alloc::Global;

/// The number of the root in the table, and the slot of its string table.
const DEVICE: usize = 28;

const TABLE_SLOT: u32 = 1;

/// The root of a frame whose message has no frame fault, else the first one.
fn pass_device<'a>(alloc: Global, frame: &Frame<'a>) -> Result<Obj<'a>, ReadFault>
    ensures { PassesMessage device result (numbers_in_segments device (segments_of frame.now)) }
{
    device_table().pass_message(alloc, DEVICE, TABLE_SLOT, frame)
}

/// This field of the struct with this number and index is out of its list.
fn out_of_list(alloc: Global, kind: usize, field: usize, index: u32) -> ReadFault
    ensures { TellsField kind field index result }
{
    let table = device_table();
    let Ok(kind_word) = Word::new(alloc, table.name(kind)) else {
        return ReadFault::Memory;
    };
    let Ok(field_word) = Word::new(alloc, table.field(kind, field)) else {
        return ReadFault::Memory;
    };
    ReadFault::Index(Place::Item {
        kind: kind_word,
        field: field_word,
        index,
    })
}

/// Adds the texts of a device to the names, those of the string table first, and gives the numbers
/// of these.
fn add_names(alloc: Global, root: Obj<'_>, names: &mut Names) -> Result<Items<NameId>, Memory>
    requires { HasRoom (table_said device (object_of root)
        ++ loose_texts device (said device (object_of root))) names.old }
    ensures adds { Adds result (table_said device (object_of root.entry)
        ++ loose_texts device (said device (object_of root.entry))) names.old names.new }
    ensures numbers { IfOk result (λ ids. AreNumbersOf names.new ids
        (table_said device (object_of root.entry))) }
{
    let strings = add_table_behind(alloc, root, TABLE_SLOT, names)?;
    add_text_behind(root, 0, names)?;
    LutDefinitions::add_texts(root.sound_obj(12), names)?;
    Ok(strings)
}

/// The record that a device's root makes once its texts are names, or its first number that is out
/// of its list.
fn take_named(
    alloc: Global,
    names: &Names,
    strings: &[NameId],
    root: Obj<'_>,
) -> Result<DeviceRec, ReadFault>
    requires known { TextsKnown names.now device (said device (object_of root)) }
    requires few { structs_in device (said device (object_of root)) < 2 ^ 32 - 1 }
    ensures reading { IsReading (device_record names.now) result
        (record_unless_bad (map (name_text names.now) strings.now) device
        (said device (object_of root.entry))) }
    ensures named { IfOk result (DeviceNamed (limit strings.now names.now)) }
    ensures fits { IfOk result IndexesFit }
{
    match take_device(alloc, names, strings, root) {
        Ok(device) => Ok(device),
        Err(Stop::OutOfList { kind, field, index }) => Err(out_of_list(alloc, kind, field, index)),
        Err(Stop::Memory) => Err(ReadFault::Memory),
        Err(Stop::Unnamed) => unreachable!(),
    }
}

/// The record of a frame's device resources, whose texts are added to the names. Else the first
/// rule that the whole frame breaks, in reading order, and after that the first index, enumerant or
/// tag that is out of its list.
///
/// The texts of the string table are added first, then those behind pointers in reading order, each
/// unless it is a name; none where the frame breaks a rule. At most 2^28 + 66 names are added, also
/// where memory is wanting, and each name keeps its number. No list of the record has more than
/// 2^28 + 64 entries.
pub fn read_device(
    alloc: Global,
    frame: &Frame<'_>,
    names: &mut Names,
) -> Result<DeviceRec, ReadFault>
    requires { length names.old + 2 ^ 28 + 66 < 2 ^ 32 - 1 }
    ensures reading { IsReading (device_record names.new) result
        (reading_in_segments device (segments_of frame.now)) }
    ensures named { IfOk result (DeviceNamed (length names.new)) }
    ensures lists { IfOk result (λ rec. ListsWithin (2 ^ 28 + 64) Datum device
        (device_record names.new rec)) }
    ensures fits { IfOk result IndexesFit }
    ensures keeps { KeepsNumbers names.old names.new }
    ensures most { length names.new ≤ length names.old + 2 ^ 28 + 66 }
    ensures adds { AddsExactly result (texts_in device
        (numbers_in_segments device (segments_of frame.now))) names.old names.new }
{
    let root = match pass_device(alloc, frame) {
        Ok(root) => root,
        Err(fault) => return Err(fault),
    };
    let strings = match add_names(alloc, root, names) {
        Ok(strings) => strings,
        Err(_) => return Err(ReadFault::Memory),
    };
    take_named(alloc, names, strings.as_slice(), root)
}
