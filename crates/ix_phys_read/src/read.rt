//! Reading physical netlists.

ghost use Rattle.std.specs.Prelude.{◌≡◌, ◌+◌, ◌-◌, ◌^◌, ◌<◌, ◌≤◌, length, map, Some, slice_get};
ghost use Rattle.std.specs.Prelude.{IfOk};
ghost use Rattle.std.specs.List.{All};
ghost use Rattle.ix_device_read.specs.Adding.{texts_in, AddsExactly};
ghost use Rattle.ix_device_read.specs.Reading.{reading_in_segments, record_unless_bad, IsReading};
ghost use Rattle.ix_frame.specs.Objects.{whole_budget};
ghost use Rattle.ix_frame.specs.Sound.{sound_text};
ghost use Rattle.ix_frame.specs.Views.{object_of, segments_of};
ghost use Rattle.ix_message.specs.Message.{numbers_in_segments};
ghost use Rattle.ix_message.specs.Phys.{phys_netlist};
ghost use Rattle.ix_message_write.specs.Table.{name_text};
ghost use Rattle.ix_schema.specs.Said.{said};
ghost use Rattle.ix_schema.specs.Splitting.{PassesMessage};
ghost use Rattle.ix_strings.specs.Names.{KeepsNumbers};
ghost use Rattle.ix_phys_write.specs.Record.{phys_record, IsPhysNamed};
ghost use Rattle.ix_phys_read.specs.Forests.{HasForests};
ghost use Rattle.ix_phys_read.specs.Sound.{IsPassed};
ghost use Rattle.ix_take.specs.Views.{kind_word, field_word};
ghost use Rattle.ix_phys_read.specs.Views.{TellsField};
ghost use Rattle.ix_phys_read.specs.Walked.{counted_structs};

use crate::context::PhysContext;
use crate::names::add_names;
use crate::netlist::{NETLIST, take_netlist};
use crate::segment::BRANCH;
use ix_frame::{Budget, Frame, Obj};
use ix_num::NameId;
use ix_rec::{Phys, Place, ReadFault, Word};
use ix_schema::{pass_texts_behind, phys_table, readings_split};
use ix_strings::Names;
use ix_take::{Context, Stop, Walk, walk_finds_first};
use std::alloc::Global;

/// The slot of the string table.
const TABLE_SLOT: u32 = 1;

/// The root of a frame whose message has no frame fault, else the first one.
fn pass_netlist<'a>(alloc: Global, frame: &Frame<'a>) -> Result<Obj<'a>, ReadFault>
    ensures message { PassesMessage phys_netlist result
        (numbers_in_segments phys_netlist (segments_of frame.now)) }
    ensures passed { IfOk result (λ root. IsPassed (object_of root)) }
    ensures cost { whole_budget (segments_of frame.now) ≤ 2 ^ 28 + 64 }
{
    // A reading is this pass, and what the structs say where it finds no fault.
    readings_split();
    let mut budget = Budget::new(frame);
    let root = frame.root(&mut budget)?;
    pass_texts_behind(root, TABLE_SLOT, &mut budget)?;
    phys_table().pass(alloc, NETLIST, root, &mut budget)?;
    Ok(root)
}

/// The name of a kind of structs.
fn kind_name(kind: usize) -> &'static str
    ensures { result.now ≡ kind_word counted_structs kind }
{
    if kind == BRANCH {
        "RouteBranch"
    } else {
        phys_table().name(kind)
    }
}

/// The name of a field of a route branch, empty where there is none.
#[tactic(auto, unfolding(ix_take::specs::Views::field_word))]
fn branch_field(field: usize) -> &'static str
    ensures { result.now ≡ field_word counted_structs 6 field }
{
    match field {
        0 => "kind_tag",
        1 => "first",
        2 => "second",
        3 => "third",
        4 => "forward",
        5 => "branches",
        _ => "",
    }
}

/// The name of a field of a kind of structs, empty where there is none.
fn field_name(kind: usize, field: usize) -> &'static str
    ensures { result.now ≡ field_word counted_structs kind field }
{
    if kind == BRANCH {
        branch_field(field)
    } else {
        phys_table().field(kind, field)
    }
}

/// This field of the struct of this kind with this index is out of its list.
fn out_of_list(alloc: Global, kind: usize, field: usize, index: u32) -> ReadFault
    ensures { TellsField kind field index result }
{
    let Ok(kind_text) = Word::new(alloc, kind_name(kind)) else {
        return ReadFault::Memory;
    };
    let Ok(field_text) = Word::new(alloc, field_name(kind, field)) else {
        return ReadFault::Memory;
    };
    ReadFault::Index(Place::Item {
        kind: kind_text,
        field: field_text,
        index,
    })
}

/// The record that a netlist's root makes once its texts are names, or its first number that is
/// out of its list.
fn take_named(
    alloc: Global,
    names: &Names,
    strings: &[NameId],
    part: NameId,
    root: Obj<'_>,
) -> Result<Phys, ReadFault>
    requires passed { IsPassed (object_of root) }
    requires named { All (λ id. id < length names.now) strings.now }
    requires part { slice_get names.now part ≡ Some (sound_text (object_of root) 0) }
    ensures reading { IsReading (phys_record names.now) result
        (record_unless_bad (map (name_text names.now) strings.now) phys_netlist
        (said phys_netlist (object_of root.entry))) }
    ensures named { IfOk result (IsPhysNamed names.now) }
    ensures preorder { IfOk result (λ phys. All HasForests phys.nets) }
{
    let ctx = PhysContext {
        texts: Context {
            alloc,
            names,
            strings,
        },
    };
    // The walk finds what the definition finds first.
    walk_finds_first();
    let mut walk = Walk::new();
    match take_netlist(root, part, &ctx, &mut walk) {
        Ok(phys) => Ok(phys),
        Err(Stop::OutOfList { kind, field, index }) => Err(out_of_list(alloc, kind, field, index)),
        Err(Stop::Memory) => Err(ReadFault::Memory),
    }
}

/// The record of a frame's physical netlist, whose texts are added to the names. Else the first
/// rule that the whole frame breaks, in reading order, and after that the first string number, tag
/// or enumerant that is out of its list.
///
/// The texts of the string table are added first, then the name of the device, each unless it is a
/// name; none where the frame breaks a rule. At most 2^28 + 65 names are added, also where memory
/// is wanting, and each name keeps its number.
///
/// The trees of the record's nets are in preorder. The third name of a site pin isn't looked at;
/// its second one stands there in the record. A reading costs at most 2^28 + 64 words.
pub fn read_phys(alloc: Global, frame: &Frame<'_>, names: &mut Names) -> Result<Phys, ReadFault>
    requires { length names.old + 2 ^ 28 + 66 < 2 ^ 32 - 1 }
    ensures reading { IsReading (phys_record names.new) result
        (reading_in_segments phys_netlist (segments_of frame.now)) }
    ensures named { IfOk result (IsPhysNamed names.new) }
    ensures preorder { IfOk result (λ phys. All HasForests phys.nets) }
    ensures cost { whole_budget (segments_of frame.now) ≤ 2 ^ 28 + 64 }
    ensures keeps { KeepsNumbers names.old names.new }
    ensures most { length names.new ≤ length names.old + 2 ^ 28 + 65 }
    ensures adds { AddsExactly result (texts_in phys_netlist
        (numbers_in_segments phys_netlist (segments_of frame.now))) names.old names.new }
{
    let root = match pass_netlist(alloc, frame) {
        Ok(root) => root,
        Err(fault) => return Err(fault),
    };
    let named = match add_names(alloc, root, names) {
        Ok(named) => named,
        Err(_) => return Err(ReadFault::Memory),
    };
    take_named(alloc, names, named.strings.as_slice(), named.part, root)
}
