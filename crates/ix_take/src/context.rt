//! What a struct's numbers are asked against.

ghost use Rattle.std.specs.Prelude.{◌<◌, length};
ghost use Rattle.std.specs.List.{All};

use ix_num::NameId;
use ix_strings::Names;
use std::alloc::Global;

/// The names of a message.
#[derive(Drop)]
pub struct Context<'n> {
    /// Where memory is taken from.
    pub alloc: Global,
    /// The names of the run.
    pub names: &'n Names,
    /// The names of the string table.
    pub strings: &'n [NameId],
    ghost named: { All (λ id. id < length names.now) strings.now },
}
