//! Files in a map.

ghost use Rattle.std.specs.Prelude.{◌≡◌, ◌≤◌, ◌++◌, [], length, take, drop, option_copied};
ghost use Rattle.std.specs.Prelude.{unwrap_or, Some, IsSome, IsOk, OnOk, OnErr};
ghost use Rattle.ix_shelf.specs.Shelf.{with_file};
ghost use Rattle.ix_shelf.specs.MemFiles.{files_in, given_at};

use ix_num::Memory;
use std::alloc::Global;
use std::collections::BTreeMap;

/// Files by name.
pub type FileMap = BTreeMap<String, Vec<u8>>;

/// The bytes of a file, or `None` where there is none of that name.
pub fn file_in<'a>(files: &'a FileMap, name: &str) -> Option<&'a [u8]>
    ensures { option_copied result ≡ files_in files.now name.now }
{
    match files.get(name) {
        Some(file) => Some(file.as_slice()),
        None => None,
    }
}

/// Makes the file these bytes. `Memory` leaves all files as before.
pub fn set_file(alloc: Global, files: &mut FileMap, name: &str, bytes: &[u8]) -> Result<(), Memory>
    ensures ok { OnOk result (files_in files.new
        ≡ with_file name.now bytes.now (files_in files.old)) }
    ensures err { OnErr result (files_in files.new ≡ files_in files.old) }
{
    let Ok(key) = String::from_str(alloc, name) else {
        return Err(Memory);
    };
    let Ok(file) = Vec::from_slice(alloc, bytes) else {
        return Err(Memory);
    };
    match files.insert(key, file) {
        Ok(_) => Ok(()),
        Err(_) => Err(Memory),
    }
}

/// Makes the file empty, a new one where there is none. `Memory` leaves all files as before, and
/// comes only where there is none.
pub fn empty_file(alloc: Global, files: &mut FileMap, name: &str) -> Result<(), Memory>
    ensures ok { OnOk result (files_in files.new ≡ with_file name.now [] (files_in files.old)) }
    ensures err { OnErr result (files_in files.new ≡ files_in files.old) }
    ensures there { IsSome (files_in files.old name.now) → IsOk result }
{
    if let Some(file) = files.get_mut(name) {
        file.clear();
        return Ok(());
    }
    set_file(alloc, files, name, &[])
}

/// Adds a piece to the end of a file, which is made where there is none. `Memory` leaves all files
/// as before, and comes only where there is none or the piece isn't empty.
pub fn add_to_file(
    alloc: Global,
    files: &mut FileMap,
    name: &str,
    piece: &[u8],
) -> Result<(), Memory>
    ensures ok { OnOk result (files_in files.new
        ≡ with_file name.now (unwrap_or (files_in files.old name.now) [] ++ piece.now)
        (files_in files.old)) }
    ensures err { OnErr result (files_in files.new ≡ files_in files.old) }
    ensures there { IsSome (files_in files.old name.now) → length piece.now ≡ 0 → IsOk result }
{
    if let Some(file) = files.get_mut(name) {
        return match file.extend_from_slice(piece) {
            Ok(()) => Ok(()),
            Err(_) => Err(Memory),
        };
    }
    set_file(alloc, files, name, piece)
}

/// Copies bytes of a file, from the byte `at` on, to the front of `into`: as many as this room
/// takes and the file has.
pub fn copy_at(file: &[u8], at: u64, room: usize, into: &mut [u8]) -> usize
    requires { room ≤ length into.old }
    ensures given { result ≡ given_at (Some file.now) at room }
    ensures bytes { take result into.new ≡ take result (drop at file.now) }
{
    if at >= file.len() as u64 {
        return 0;
    }
    let start = at as usize;
    let size = room.min(file.len() - start);
    into[..size].copy_from_slice(&file[start..start + size]);
    size
}
