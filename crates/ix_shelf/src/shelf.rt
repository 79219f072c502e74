//! A shelf of named files.

ghost use Rattle.std.specs.Prelude.{◌≡◌, ◌<◌, ◌≤◌, ◌⊎◌, List, [], length, Option, option_map, IfOk};
ghost use Rattle.std.specs.Prelude.{OnOk, OnErr, Err};
ghost use Rattle.ix_shelf.specs.Shelf.{Files, Counts, NoneFalls, with_file, after_append, Rose};
ghost use Rattle.ix_shelf.specs.Shelf.{IsAbsent, ReadsFile};

use thiserror::Error;

/// A call of a shelf or a sink that failed.
#[derive(Clone, Copy, Debug, PartialEq, Eq, Error)]
#[error("a call to the outside failed")]
pub struct Failed;

/// Files by name.
///
/// A shelf may tell its files to contracts, or not; which of the two never changes. It counts its
/// faults at reading and at writing by the file's name, and no count falls. A shelf that counts all
/// of one kind together has that count for each name. A count that stays at the end of its type
/// stands for one that rose.
pub trait Shelf {
    /// The files by name, where the shelf tells them.
    ghost files: { Self → Option Files };

    /// How often a read of the file has failed.
    ghost read_faults: { Self → Counts };

    /// How often a create of the file, or an append to it, has failed.
    ghost write_faults: { Self → Counts };

    /// Reads bytes of a file, from the byte `at` on, into the front of `into`, and answers how
    /// many. It answers 0 for an `into` that isn't empty only at the file's end. What stands in
    /// `into` behind those bytes is left open.
    ///
    /// It fails only where the count of read faults of that name rose, or where the shelf tells its
    /// files and has none of that name; there it always does.
    fn read_at(&mut self, name: &str, at: u64, into: &mut [u8]) -> Result<usize, Failed>
        ensures files { files self.new ≡ files self.old }
        ensures write_faults { write_faults self.new ≡ write_faults self.old }
        ensures read_faults { NoneFalls (read_faults self.old) (read_faults self.new) }
        ensures room { IfOk result (λ n. n ≤ length into.old) }
        ensures bytes { IfOk result (λ n. ReadsFile (files self.old) name.now at (length into.old)
            into.new n) }
        ensures cause { OnErr result (Rose (read_faults self.old name.now)
            (read_faults self.new name.now) ⊎ IsAbsent (files self.old) name.now) };

    /// Makes the file empty, a new one where there is none of that name.
    ///
    /// It fails only where the count of write faults of that name rose, and then changes nothing.
    fn create(&mut self, name: &str) -> Result<(), Failed>
        ensures read_faults { read_faults self.new ≡ read_faults self.old }
        ensures write_faults { NoneFalls (write_faults self.old) (write_faults self.new) }
        ensures made { OnOk result (files self.new
            ≡ option_map (with_file name.now []) (files self.old)) }
        ensures unchanged { OnErr result (files self.new ≡ files self.old) }
        ensures cause { OnErr result (Rose (write_faults self.old name.now)
            (write_faults self.new name.now)) };

    /// Adds bytes of the front of a piece to the file's end, and answers how many. A file that
    /// isn't there is made.
    ///
    /// It fails, or takes nothing of a piece that isn't empty, only where the count of write faults
    /// of that name rose, and then changes nothing.
    fn append(&mut self, name: &str, piece: &[u8]) -> Result<usize, Failed>
        ensures read_faults { read_faults self.new ≡ read_faults self.old }
        ensures write_faults { NoneFalls (write_faults self.old) (write_faults self.new) }
        ensures taken { IfOk result (λ n. n ≤ length piece.now) }
        ensures added { IfOk result (λ n. files self.new
            ≡ option_map (after_append name.now piece.now n) (files self.old)) }
        ensures nothing { IfOk result (λ n. n ≡ 0 → 0 < length piece.now
            → Rose (write_faults self.old name.now) (write_faults self.new name.now)) }
        ensures unchanged { OnErr result (files self.new ≡ files self.old) }
        ensures cause { OnErr result (Rose (write_faults self.old name.now)
            (write_faults self.new name.now)) };
}
