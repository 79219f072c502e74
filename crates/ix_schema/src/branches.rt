//! The first pass over branches.

ghost use Rattle.std.specs.Prelude.{◌≡◌, ◌+◌, ◌<◌, ℕ, OnOk};
ghost use Rattle.ix_frame.specs.Views.{elements_of};
ghost use Rattle.ix_schema.specs.Open.{Puts};
ghost use Rattle.ix_schema.specs.Passed.{branches_left, Passes};

use ix_frame::{Budget, List};
use ix_num::Memory;
use ix_rec::ReadFault;
use std::alloc::Global;

/// A list of branches of which so many were passed.
#[derive(Clone, Copy)]
struct Open<'a> {
    list: List<'a>,
    next: u32,
}

/// Puts a list of which so many branches were passed on top of the stack, unless it is done.
fn put<'a>(stack: &mut Vec<Open<'a>>, list: List<'a>, next: u32) -> Result<(), Memory>
    ensures { OnOk result (Puts (record { list = list.entry; next = next })
        stack.old.items stack.new.items) }
{
    if next < list.len() {
        stack.push(Open { list, next })?;
    }
    Ok(())
}

/// Passes over the branches of a list, each with all that is below it before the next. The lists
/// that are not done are kept on a stack, and no others: a chain of any length needs one place.
pub fn pass_branches(alloc: Global, l: List<'_>, budget: &mut Budget) -> Result<(), ReadFault>
    ensures { (bound : ℕ) → (elements_of l.entry).count + budget.old < bound
        → Passes result budget.new (branches_left bound (elements_of l.entry).count
        (elements_of l.entry) 0 budget.old) }
{
    let mut stack = Vec::new(alloc);
    put(&mut stack, l, 0)?;
    while let Some(top) = stack.pop() {
        if top.next < top.list.len() {
            let inner = top.list.at(top.next).list(0, budget)?;
            put(&mut stack, top.list, top.next + 1)?;
            put(&mut stack, inner, 0)?;
        }
    }
    Ok(())
}
