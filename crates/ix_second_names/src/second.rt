//! The first name of a list that stands a second time.

ghost use Rattle.std.specs.Prelude.{◌≡◌, ◌<◌, ◌^◌, ℕ, IfOk, MatchOption, Some, length, slice_get};
ghost use Rattle.ix_second_names.specs.Seconds.{IsFirstSecond, NoneSecond};
ghost use Rattle.ix_second_names.specs.Seen.{AreSeen};

use ix_num::{Memory, NameId};
use std::alloc::Global;

// The first place at which a name stands that stands before.
fn seen_twice(names: &[NameId], marks: &mut [bool]) -> Option<u32>
    requires few { length names.now < 2 ^ 32 }
    requires inside { (k name : ℕ) → slice_get names.now k ≡ Some name → name < length marks.old }
    requires seen { AreSeen names.now marks.old (length marks.old) 0 }
    ensures { MatchOption result (NoneSecond names.now (length names.now))
        (IsFirstSecond names.now) }
{
    for place in 0..names.len() {
        let name = names[place].get() as usize;
        if marks[name] {
            return Some(place as u32);
        }
        marks[name] = true;
    }
    None
}

// So many marks, none of them set.
fn no_marks(alloc: Global, names: &[NameId], count: u32) -> Result<Vec<bool>, Memory>
    ensures many { IfOk result (λ marks. length marks.items ≡ count) }
    ensures seen { IfOk result (λ marks. AreSeen names.now marks.items count 0) }
{
    let mut marks = Vec::new(alloc);
    marks.resize(count as usize, false)?;
    Ok(marks)
}

/// The first place of a list of names, which are below `count`, at which a name stands that stands
/// before; none exactly where all differ. `Memory` is the only error. It takes a mark a name.
pub fn first_second(alloc: Global, names: &[NameId], count: u32) -> Result<Option<u32>, Memory>
    requires few { length names.now < 2 ^ 32 }
    requires inside { (k name : ℕ) → slice_get names.now k ≡ Some name → name < count }
    ensures { IfOk result (λ found. MatchOption found (NoneSecond names.now (length names.now))
        (IsFirstSecond names.now)) }
{
    let mut marks = no_marks(alloc, names, count)?;
    Ok(seen_twice(names, &mut marks))
}
