//! Trees of route branches.

ghost use Rattle.std.specs.Prelude.{◌≡◌, ◌++◌, ◌∷◌, [], OnOk, IfOk, length};
ghost use Rattle.std.specs.List.{All};
ghost use Rattle.ix_frame.specs.Sound.{endless};
ghost use Rattle.ix_frame.specs.Views.{elements_of};
ghost use Rattle.ix_message.specs.Indexes.{branch_steps, only_table};
ghost use Rattle.ix_message.specs.Names.{branches_map, data_of};
ghost use Rattle.ix_message.specs.Phys.{segment};
ghost use Rattle.ix_schema.specs.Said.{branches_said};
ghost use Rattle.ix_phys_write.specs.Record.{segment_row, IsSegmentNamed};
ghost use Rattle.ix_phys_write.specs.Trees.{trees_at};
ghost use Rattle.ix_rec.specs.Forest.{IsPreorder};
ghost use Rattle.ix_phys_read.specs.Open.{Puts};
ghost use Rattle.ix_phys_read.specs.Sound.{AreSound};
ghost use Rattle.ix_take.specs.Views.{table_of, Takes};
ghost use Rattle.ix_take.specs.Walked.{walked};
ghost use Rattle.ix_phys_read.specs.Walked.{counted_structs};

use crate::segment::take_segment;
use ix_frame::List;
use ix_num::Memory;
use ix_rec::{Forest, Segment};
use ix_take::{Context, Stop, Walk};

/// A list of branches at a depth, of which so many were taken.
#[derive(Clone, Copy)]
struct Open<'a> {
    list: List<'a>,
    next: u32,
    depth: u32,
}

/// Puts a list of which so many branches were taken on top of the stack, unless it is done.
fn put<'a>(stack: &mut Vec<Open<'a>>, list: List<'a>, next: u32, depth: u32) -> Result<(), Memory>
    ensures { OnOk result (Puts (record { list = list.entry; next = next; depth = depth })
        stack.old.items stack.new.items) }
{
    if next < list.len() {
        stack.push(Open { list, next, depth })?;
    }
    Ok(())
}

/// Takes the branches of a list, each with all that is below it before the next. The lists that are
/// not done are kept on a stack, and no others: a chain of any length needs one place.
pub fn take_branches(l: List<'_>, ctx: &Context<'_>, walk: &mut Walk) -> Result<Forest, Stop>
    requires { AreSound (elements_of l) 0 (branches_said segment (elements_of l) endless) }
    ensures made { Takes counted_structs
        (λ bs. branches_map (segment_row ctx.now.names.now) (trees_at 0 bs)) result walk.new
        (branches_map (λ row. data_of (table_of ctx.now) row segment row)
        (branches_said segment (elements_of l.entry) endless))
        (walked counted_structs walk.old (branch_steps (only_table (length (table_of ctx.now)))
        "RouteBranch" segment (branches_said segment (elements_of l.entry) endless))) }
    ensures named { IfOk result (All (IsSegmentNamed ctx.now.names.now)) }
    ensures preorder { IfOk result IsPreorder }
{
    let mut found = Forest::new(ctx.alloc);
    let mut stack = Vec::new(ctx.alloc);
    put(&mut stack, l, 0, 0)?;
    while let Some(top) = stack.pop() {
        if top.next < top.list.len() {
            let o = top.list.at(top.next);
            let segment = take_segment(o, ctx, walk)?;
            found.push(top.depth, segment)?;
            put(&mut stack, top.list, top.next + 1, top.depth)?;
            put(&mut stack, o.sound_list(0), 0, top.depth + 1)?;
        }
    }
    Ok(found)
}
