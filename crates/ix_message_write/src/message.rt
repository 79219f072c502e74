//! Whole messages.

ghost use Rattle.std.specs.Prelude.{◌≡◌, false, IsTrue, Err, IfOk, OnOk};
ghost use Rattle.ix_message.specs.Message.{encoding, is_too_long};
ghost use Rattle.ix_message_write.specs.Table.{IsRoot};

use crate::string_table::Strings;
use crate::struct_writer::StructWriter;
use ix_capw::{BuildFault, Builder};
use ix_strings::Names;
use std::alloc::Global;

/// The file of a message.
///
/// # Errors
///
/// `TooLong` where the message is too long, `Memory`.
pub fn write_message<T: StructWriter>(
    alloc: Global,
    root: &T::Item,
    names: &Names,
) -> Result<Vec<u8>, BuildFault>
    requires named { T.is_named names.now root.now }
    requires root { IsRoot T.shape }
    ensures bytes { IfOk result (λ file. file.items
        ≡ encoding T.shape (T.record_by names.now root.now)) }
    ensures fits { OnOk result (is_too_long T.shape (T.record_by names.now root.now) ≡ false) }
    ensures too_long { result ≡ Err BuildFault.TooLong
        → IsTrue (is_too_long T.shape (T.record_by names.now root.now)) }
{
    let mut strings = match Strings::new(alloc, names) {
        Ok(strings) => strings,
        Err(_) => return Err(BuildFault::Memory),
    };
    match T::note(root, names, &mut strings) {
        Ok(()) => {}
        Err(fault) => return Err(fault),
    }
    let mut builder = Builder::new(alloc);
    let at = match builder.root(T::WORDS, T::POINTERS) {
        Ok(at) => at,
        Err(fault) => return Err(fault),
    };
    match T::write(alloc, root, names, &strings, &mut builder, at) {
        Ok(()) => {}
        Err(fault) => return Err(fault),
    }
    match builder.finish() {
        Ok(file) => Ok(file),
        Err(_) => Err(BuildFault::Memory),
    }
}
