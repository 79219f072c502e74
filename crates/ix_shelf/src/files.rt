//! Whole files of a shelf.

ghost use Rattle.std.specs.Prelude.{◌≡◌, ◌≢◌, ◌<◌, ◌≤◌, ◌⊎◌, ◌^◌, length, take, drop, vec_len};
ghost use Rattle.std.specs.Prelude.{option_map, Err, IfOk, OnOk, IfErr, OnErr, IsErrOf};
ghost use Rattle.ix_shelf.specs.Shelf.{NoneFalls, with_file, Rose, IsAbsent, IsWholeFile};
ghost use Rattle.ix_shelf.specs.Shelf.{IsTooLarge, LeavesPrefix};

use crate::shelf::Shelf;
use std::alloc::{AllocError, Global};
use thiserror::Error;

/// Why a file could not be read or written as a whole.
#[derive(Clone, Copy, Debug, PartialEq, Eq, Error)]
pub enum FileFault {
    /// The file isn't there, or a read of it failed.
    #[error("the file can't be read")]
    Read,
    /// The file is longer than 2^30 bytes.
    #[error("the file is longer than 2^30 bytes")]
    TooLarge,
    /// A create or an append failed.
    #[error("the file can't be written")]
    Write,
    /// Out of memory.
    #[error("out of memory")]
    Memory,
}

/// The longest file that is read: 2^30 bytes.
pub const MOST_BYTES: usize = 1 << 30;

/// The longest piece that one append is given.
const PIECE_BYTES: usize = 65_536;

/// How many bytes one read asks for at most.
const BUFFER_BYTES: usize = 1 << 20;

/// Zeros to read into, as many as asked for.
fn make_buffer(alloc: Global, size: usize) -> Result<Vec<u8>, AllocError>
    ensures { IfOk result (λ buffer. vec_len buffer ≡ size) }
{
    vec![in alloc; 0; size]
}

/// The bytes of a file to its end.
///
/// `Read` comes only where the count of read faults of that name rose in this call, or where the
/// shelf tells its files and has none of that name; `TooLarge` only where the file has a byte past
/// 2^30, and there a file is never read; `Write` never.
pub fn read_file<S: Shelf>(alloc: Global, shelf: &mut S, name: &str) -> Result<Vec<u8>, FileFault>
    ensures files { S.files shelf.new ≡ S.files shelf.old }
    ensures write_faults { S.write_faults shelf.new ≡ S.write_faults shelf.old }
    ensures read_faults { NoneFalls (S.read_faults shelf.old) (S.read_faults shelf.new) }
    ensures whole { IfOk result (λ bytes. IsWholeFile (S.files shelf.old) name.now bytes.items) }
    ensures small { IfOk result (λ bytes. vec_len bytes ≤ 2 ^ 30) }
    ensures read { IsErrOf result FileFault.Read
        → Rose (S.read_faults shelf.old name.now) (S.read_faults shelf.new name.now)
        ⊎ IsAbsent (S.files shelf.old) name.now }
    ensures too_large { IsErrOf result FileFault.TooLarge
        → IsTooLarge (S.files shelf.old) name.now (2 ^ 30) }
    ensures not_write { result ≢ Err FileFault.Write }
{
    match make_buffer(alloc, BUFFER_BYTES) {
        Ok(mut buffer) => read_by(alloc, shelf, name, buffer.as_mut_slice()),
        Err(_) => Err(FileFault::Memory),
    }
}

/// As `read_file`, through a buffer that isn't empty.
fn read_by<S: Shelf>(
    alloc: Global,
    shelf: &mut S,
    name: &str,
    buffer: &mut [u8],
) -> Result<Vec<u8>, FileFault>
    requires { 0 < length buffer.old }
    ensures files { S.files shelf.new ≡ S.files shelf.old }
    ensures write_faults { S.write_faults shelf.new ≡ S.write_faults shelf.old }
    ensures read_faults { NoneFalls (S.read_faults shelf.old) (S.read_faults shelf.new) }
    ensures whole { IfOk result (λ bytes. IsWholeFile (S.files shelf.old) name.now bytes.items) }
    ensures small { IfOk result (λ bytes. vec_len bytes ≤ 2 ^ 30) }
    ensures read { IsErrOf result FileFault.Read
        → Rose (S.read_faults shelf.old name.now) (S.read_faults shelf.new name.now)
        ⊎ IsAbsent (S.files shelf.old) name.now }
    ensures too_large { IsErrOf result FileFault.TooLarge
        → IsTooLarge (S.files shelf.old) name.now (2 ^ 30) }
    ensures not_write { result ≢ Err FileFault.Write }
{
    let mut bytes = Vec::new(alloc);
    loop {
        let given = match shelf.read_at(name, bytes.len() as u64, buffer) {
            Ok(given) => given,
            Err(_) => return Err(FileFault::Read),
        };
        if given == 0 {
            return Ok(bytes);
        }
        if given > MOST_BYTES - bytes.len() {
            return Err(FileFault::TooLarge);
        }
        match bytes.extend_from_slice(&buffer[..given]) {
            Ok(()) => {}
            Err(_) => return Err(FileFault::Memory),
        }
    }
}

/// The next piece of the bytes from a place on: 65,536 bytes, or all that are left where these are
/// fewer.
fn next_piece(bytes: &[u8], at: usize) -> &[u8]
    requires { at ≤ length bytes.now }
    ensures { result.now ≡ take 65536 (drop at bytes.now) }
{
    let size = PIECE_BYTES.min(bytes.len() - at);
    &bytes[at..at + size]
}

/// Makes the file these bytes: creates it, then appends pieces until all bytes are taken. Each
/// append is given the next 65,536 bytes, or all that are left where these are fewer.
///
/// It fails with `Write` alone, and only where the count of write faults of that name rose in this
/// call. Then the file holds a prefix of the bytes, or all is as before where it could not be
/// created. It takes no memory.
pub fn write_file<S: Shelf>(shelf: &mut S, name: &str, bytes: &[u8]) -> Result<(), FileFault>
    ensures read_faults { S.read_faults shelf.new ≡ S.read_faults shelf.old }
    ensures write_faults { NoneFalls (S.write_faults shelf.old) (S.write_faults shelf.new) }
    ensures all { OnOk result (S.files shelf.new
        ≡ option_map (with_file name.now bytes.now) (S.files shelf.old)) }
    ensures prefix { OnErr result (LeavesPrefix name.now bytes.now (S.files shelf.old)
        (S.files shelf.new)) }
    ensures cause { OnErr result (Rose (S.write_faults shelf.old name.now)
        (S.write_faults shelf.new name.now)) }
    ensures only_write { IfErr result (λ fault. fault ≡ FileFault.Write) }
{
    if shelf.create(name).is_err() {
        return Err(FileFault::Write);
    }
    let mut at = 0;
    while at < bytes.len() {
        let taken = match shelf.append(name, next_piece(bytes, at)) {
            Ok(taken) => taken,
            Err(_) => return Err(FileFault::Write),
        };
        if taken == 0 {
            return Err(FileFault::Write);
        }
        at += taken;
    }
    Ok(())
}
