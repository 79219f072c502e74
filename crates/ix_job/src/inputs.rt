//! Reading the inputs.

ghost use Rattle.std.specs.Prelude.{◌≡◌, ◌⊎◌, length, map, IfOk, IsErrOf};
ghost use Rattle.ix_shelf.specs.Shelf.{NoneFalls, Rose, IsAbsent};
ghost use Rattle.ix_job.specs.Steps.{IsContent, AreRead};

use crate::work::Content;
use ix_rec::{Bytes, Items};
use ix_shelf::{FileFault, Shelf, read_file};
use std::alloc::Global;

/// Why the inputs were not read.
#[derive(Clone, Copy)]
pub(crate) enum Unread {
    /// A fault outside at the input with this place.
    Fault(usize),
    /// Out of memory.
    Memory,
}

// Why an input was not read.
#[derive(Clone, Copy)]
enum Missing {
    Fault,
    Memory,
}

fn read_input<S: Shelf>(alloc: Global, shelf: &mut S, name: &str) -> Result<Content, Missing>
    ensures files { S.files shelf.new ≡ S.files shelf.old }
    ensures write_faults { S.write_faults shelf.new ≡ S.write_faults shelf.old }
    ensures read_faults { NoneFalls (S.read_faults shelf.old) (S.read_faults shelf.new) }
    ensures content { IfOk result (IsContent (S.files shelf.old) name.now) }
    ensures cause { IsErrOf result Missing.Fault
        → Rose (S.read_faults shelf.old name.now) (S.read_faults shelf.new name.now)
        ⊎ IsAbsent (S.files shelf.old) name.now }
{
    match read_file(alloc, shelf, name) {
        Ok(bytes) => Ok(Content::Bytes(Bytes::new(bytes))),
        Err(FileFault::TooLarge) => Ok(Content::TooLarge),
        Err(FileFault::Memory) => Err(Missing::Memory),
        // A read answers no fault at writing.
        Err(FileFault::Read | FileFault::Write) => Err(Missing::Fault),
    }
}

/// The contents of the files of these names, each read to its end, in order.
pub(crate) fn read_inputs<S: Shelf>(
    alloc: Global,
    shelf: &mut S,
    names: &[&str],
) -> Result<Items<Content>, Unread>
    ensures files { S.files shelf.new ≡ S.files shelf.old }
    ensures write_faults { S.write_faults shelf.new ≡ S.write_faults shelf.old }
    ensures read_faults { NoneFalls (S.read_faults shelf.old) (S.read_faults shelf.new) }
    ensures read { AreRead (S.files shelf.old) (S.read_faults shelf.old) (S.read_faults shelf.new)
        (map (λ name. name.now) names.now) result }
    ensures count { IfOk result (λ contents. length contents ≡ length names.now) }
{
    let mut contents = Items::new(alloc);
    for i in 0..names.len() {
        let content = match read_input(alloc, shelf, names[i]) {
            Ok(content) => content,
            Err(Missing::Fault) => return Err(Unread::Fault(i)),
            Err(Missing::Memory) => return Err(Unread::Memory),
        };
        match contents.push(content) {
            Ok(()) => {}
            Err(_) => return Err(Unread::Memory),
        }
    }
    Ok(contents)
}
