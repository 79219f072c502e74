//! Trees of route branches.

ghost use Rattle.std.specs.Prelude.{◌≡◌, ◌+◌, ◌*◌, ◌<◌, ◌≤◌, false, true, map, Result, Ok, Err};
ghost use Rattle.std.specs.List.{All, flat_map};
ghost use Rattle.ix_message.specs.Layout.{structs_laid, branch_sections, data_section};
ghost use Rattle.ix_message.specs.Names.{branch_uses, branches_map, number_for, place_in, text_in};
ghost use Rattle.ix_capw.specs.Growth.{written, with_object, blank_structs, pointer_word, IsInside};
ghost use Rattle.ix_capw.specs.Growth.{IsSegment};
ghost use Rattle.ix_message_write.specs.Table.{table_in, IsTableOf};
ghost use Rattle.ix_message_write.specs.Says.{Notes, Puts};
ghost use Rattle.ix_phys_write.specs.Record.{segment_row, kind_number, IsSegmentNamed};
ghost use Rattle.ix_phys_write.specs.Trees.{trees_at};
ghost use Rattle.ix_phys_write.specs.Made.{MakesList};

use crate::widths::widths_of;
use ix_capw::{At, BuildFault, Builder};
use ix_message::slots::route_branch;
use ix_message_write::{Strings, write_row};
use ix_rec::{Branch, BranchKind, Forest, Segment};
use ix_strings::Names;
use std::alloc::Global;

const WORDS: u16 = route_branch::DATA_WORDS as u16;

const POINTERS: u16 = route_branch::POINTERS as u16;

/// Takes note of the names that trees use, in preorder.
pub fn note_branches(
    forest: &Forest,
    names: &Names,
    strings: &mut Strings,
) -> Result<(), BuildFault>
    requires named { All (IsSegmentNamed names.now) forest.now }
    requires table { IsTableOf names.now strings.old }
    ensures { Notes names.now strings.old strings.new
        (branch_uses (branches_map (segment_row names.now) (trees_at 0 forest.now))) result }
{
    for i in 0..forest.len() {
        match note_branch(forest.at(i), names, strings) {
            Ok(()) => {}
            Err(fault) => return Err(fault),
        }
    }
    Ok(())
}

fn note_branch(
    branch: &Branch<Segment>,
    names: &Names,
    strings: &mut Strings,
) -> Result<(), BuildFault>
    requires named { IsSegmentNamed names.now branch.now }
    requires table { IsTableOf names.now strings.old }
    ensures { Notes names.now strings.old strings.new
        (flat_map text_in (segment_row names.now branch.now.item)) result }
{
    let segment = branch.item;
    match segment.kind {
        BranchKind::SitePin => strings.note_all(names, &[segment.first, segment.second]),
        _ => strings.note_all(names, &[segment.first, segment.second, segment.third]),
    }
}

/// Puts trees, and leads the pointer in this slot to the list of their roots. Items are written in
/// preorder, each with the list of the branches that follow it, for which room is made at once.
pub fn write_branches(
    alloc: Global,
    forest: &Forest,
    names: &Names,
    strings: &Strings,
    builder: &mut Builder,
    at: At,
    slot: u16,
) -> Result<(), BuildFault>
    requires named { All (IsSegmentNamed names.now) forest.now }
    requires table { IsTableOf names.now strings.now }
    requires inside { IsInside at builder.old }
    requires slot { slot < at.pointers }
    ensures { Puts (pointer_word at slot) (structs_laid
        (branch_sections (branches_map (map (number_for
        (place_in (table_in names.now strings.now))))
        (branches_map (segment_row names.now) (trees_at 0 forest.now))))) builder.old builder.new
        result }
{
    let widths = match widths_of(alloc, forest) {
        Ok(widths) => widths,
        Err(_) => return Err(BuildFault::Memory),
    };
    // For each depth the word of its next branch.
    let mut next: Vec<u32> = Vec::new(alloc);
    match next.resize(forest.len() + 2, 0) {
        Ok(()) => {}
        Err(_) => return Err(BuildFault::Memory),
    }
    next[0] = match make_list(builder, at, slot, widths.roots) {
        Ok(start) => start,
        Err(fault) => return Err(fault),
    };
    for i in 0..forest.len() {
        let branch = forest.at(i);
        let depth = branch.depth as usize;
        let start = next[depth];
        let here = At {
            start,
            words: WORDS,
            pointers: POINTERS,
        };
        write_segment(&branch.item, names, strings, builder, here);
        next[depth + 1] = match make_list(builder, here, 0, widths.below[i]) {
            Ok(start) => start,
            Err(fault) => return Err(fault),
        };
        next[depth] = start + (WORDS + POINTERS) as u32;
    }
    Ok(())
}

// Makes a list of so many branches, and answers where the first begins.
fn make_list(builder: &mut Builder, at: At, slot: u16, count: usize) -> Result<u32, BuildFault>
    requires inside { IsInside at builder.old }
    requires slot { slot < at.pointers }
    ensures { MakesList (pointer_word at slot) count builder.old builder.new result }
{
    if count >= 1 << 30 {
        return Err(BuildFault::TooLong);
    }
    match builder.list(at, slot, count as u32, WORDS, POINTERS) {
        Ok(list) => Ok(list.start),
        Err(fault) => Err(fault),
    }
}

// Writes a branch's data.
fn write_segment(segment: &Segment, names: &Names, strings: &Strings, builder: &mut Builder, at: At)
    requires named { IsSegmentNamed names.now record { depth = 0; item = segment.now } }
    requires table { IsTableOf names.now strings.now }
    requires inside { IsInside at builder.old }
    requires segment { IsSegment builder.old }
    requires words { at.words ≡ 3 }
    ensures made { builder.new ≡ written (8 * at.start) 24
        (data_section (map (number_for (place_in (table_in names.now strings.now)))
        (segment_row names.now segment.now))) builder.old }
    ensures segment { IsSegment builder.new }
{
    let third = match segment.kind {
        BranchKind::SitePin => 0,
        _ => strings.place(names, segment.third),
    };
    let row = [
        number_of_kind(segment.kind),
        strings.place(names, segment.first),
        strings.place(names, segment.second),
        third,
        segment.forward as u32,
    ];
    write_row(builder, at, &row);
}

fn number_of_kind(kind: BranchKind) -> u32
    ensures { result ≡ kind_number kind }
{
    match kind {
        BranchKind::BelPin => 0,
        BranchKind::SitePin => 1,
        BranchKind::Pip => 2,
        BranchKind::SitePip => 3,
    }
}
