//! Reading a logical netlist.

ghost use Rattle.std.specs.Prelude.{◌≡◌, ◌+◌, ◌-◌, ◌^◌, ◌<◌, ◌≤◌, map, length, Some, slice_get};
ghost use Rattle.std.specs.Prelude.{IfOk};
ghost use Rattle.std.specs.List.{All};
ghost use Rattle.ix_device_read.specs.Adding.{texts_in, AddsExactly};
ghost use Rattle.ix_device_read.specs.Reading.{reading_in_segments, record_unless_bad, IsReading};
ghost use Rattle.ix_frame.specs.Sound.{sound_text};
ghost use Rattle.ix_frame.specs.Views.{object_of, segments_of};
ghost use Rattle.ix_message.specs.Message.{numbers_in_segments};
ghost use Rattle.ix_message.specs.Netlist.{netlist};
ghost use Rattle.ix_message_write.specs.Table.{name_text};
ghost use Rattle.ix_schema.specs.Said.{said};
ghost use Rattle.ix_schema.specs.Splitting.{PassesMessage};
ghost use Rattle.ix_strings.specs.Names.{KeepsNumbers};
ghost use Rattle.ix_take.specs.Views.{kind_word, field_word};
ghost use Rattle.ix_logic_read.specs.Passed.{IsPassed};
ghost use Rattle.ix_logic_read.specs.Record.{netlist_record, IsNetlistNamed};
ghost use Rattle.ix_logic_read.specs.Structs.{netlist_structs};
ghost use Rattle.ix_logic_read.specs.Told.{TellsField};

use crate::context::NetlistContext;
use crate::names::add_names;
use crate::netlist::take_netlist;
use crate::pins::held_by;
use crate::table::netlist_table;
use ix_frame::{Budget, Frame, Obj};
use ix_num::NameId;
use ix_rec::{NetlistRec, Place, ReadFault, Word};
use ix_schema::{pass_texts_behind, readings_split};
use ix_strings::Names;
use ix_take::{Context, Stop, Walk, walk_finds_first};
use std::alloc::Global;

/// The number of the root in the table.
const NETLIST: usize = 7;

/// The slot of the string table.
const TABLE_SLOT: u32 = 3;

/// The root of a frame whose message has no frame fault, else the first one.
fn pass_netlist<'a>(alloc: Global, frame: &Frame<'a>) -> Result<Obj<'a>, ReadFault>
    ensures message { PassesMessage netlist result
        (numbers_in_segments netlist (segments_of frame.now)) }
    ensures passed { IfOk result (λ root. IsPassed (object_of root)) }
{
    // A reading is this pass, and what the structs say where it finds no fault.
    readings_split();
    let mut budget = Budget::new(frame);
    let root = frame.root(&mut budget)?;
    pass_texts_behind(root, TABLE_SLOT, &mut budget)?;
    netlist_table().pass(alloc, NETLIST, root, &mut budget)?;
    Ok(root)
}

/// The name of a kind of structs.
#[tactic(auto, unfolding(ix_take::specs::Views::kind_word))]
fn kind_name(kind: usize) -> &'static str
    ensures { result.now ≡ kind_word netlist_structs kind }
{
    netlist_table().name(kind)
}

/// The name of a field of a kind of structs, empty where there is none.
#[tactic(auto, unfolding(ix_take::specs::Views::field_word))]
fn field_name(kind: usize, field: usize) -> &'static str
    ensures { result.now ≡ field_word netlist_structs kind field }
{
    netlist_table().field(kind, field)
}

/// This field of the struct of this kind with this index is out of its list.
fn out_of_list(alloc: Global, kind: usize, field: usize, index: u32) -> ReadFault
    ensures { TellsField kind field index result }
{
    let Ok(kind_text) = Word::new(alloc, kind_name(kind)) else {
        return ReadFault::Memory;
    };
    let Ok(field_text) = Word::new(alloc, field_name(kind, field)) else {
        return ReadFault::Memory;
    };
    ReadFault::Index(Place::Item {
        kind: kind_text,
        field: field_text,
        index,
    })
}

/// The record that a netlist's root makes once its texts are names, or its first number that is
/// out of its list.
fn take_named(
    alloc: Global,
    names: &Names,
    strings: &[NameId],
    name: NameId,
    root: Obj<'_>,
) -> Result<NetlistRec, ReadFault>
    requires passed { IsPassed (object_of root) }
    requires named { All (λ id. id < length names.now) strings.now }
    requires name { slice_get names.now name ≡ Some (sound_text (object_of root) 0) }
    ensures reading { IsReading (netlist_record names.now) result
        (record_unless_bad (map (name_text names.now) strings.now) netlist
        (said netlist (object_of root.entry))) }
    ensures named { IfOk result (IsNetlistNamed names.now) }
{
    // The walk finds what the definition finds first.
    walk_finds_first();
    let decls = root.sound_list(4);
    let held = match held_by(alloc, decls) {
        Ok(held) => held,
        Err(_) => return Err(ReadFault::Memory),
    };
    let ctx = NetlistContext {
        texts: Context {
            alloc,
            names,
            strings,
        },
        decls,
        ports: root.sound_list(5),
        insts: root.sound_list(6),
        held,
    };
    let mut walk = Walk::new();
    match take_netlist(root, name, &ctx, &mut walk) {
        Ok(netlist) => Ok(netlist),
        Err(Stop::OutOfList { kind, field, index }) => Err(out_of_list(alloc, kind, field, index)),
        Err(Stop::Memory) => Err(ReadFault::Memory),
    }
}

/// The record of a frame's logical netlist, whose texts are added to the names. Else the first rule
/// that the whole frame breaks, in reading order, and after that the first string number, index,
/// tag or enumerant that is out of its list. A port instance is told at `port` where its owner's
/// declaration lacks the port, at `bus_tag` where the port is a bus and it isn't or the other way
/// round, at `idx` past the bus, and at `inst` where the instance isn't one of the cell.
///
/// The texts of the string table are added first, then the name of the netlist, each unless it is a
/// name; none where the frame breaks a rule. At most 2^28 + 65 names are added, also where memory
/// is wanting, and each name keeps its number.
///
/// To find the ports of declarations it takes 8 bytes for each, and to find the instances of a cell
/// 8 bytes for each while the cell is read.
pub fn read_netlist(
    alloc: Global,
    frame: &Frame<'_>,
    names: &mut Names,
) -> Result<NetlistRec, ReadFault>
    requires { length names.old + 2 ^ 28 + 66 < 2 ^ 32 - 1 }
    ensures reading { IsReading (netlist_record names.new) result
        (reading_in_segments netlist (segments_of frame.now)) }
    ensures named { IfOk result (IsNetlistNamed names.new) }
    ensures keeps { KeepsNumbers names.old names.new }
    ensures most { length names.new ≤ length names.old + 2 ^ 28 + 65 }
    ensures adds { AddsExactly result (texts_in netlist
        (numbers_in_segments netlist (segments_of frame.now))) names.old names.new }
{
    let root = match pass_netlist(alloc, frame) {
        Ok(root) => root,
        Err(fault) => return Err(fault),
    };
    let named = match add_names(alloc, root, names) {
        Ok(named) => named,
        Err(_) => return Err(ReadFault::Memory),
    };
    take_named(alloc, names, named.strings.as_slice(), named.name, root)
}
