//! A shelf in memory.

ghost use Rattle.std.specs.Prelude.{◌≡◌, ◌<◌, ◌≤◌, ◌⊎◌, ◌++◌, ◌∷◌, [], ℕ, List, length, Option};
ghost use Rattle.std.specs.Prelude.{Some, None, option_map, option_copied, IsSome, Ok, IsOk, IsErr};
ghost use Rattle.std.specs.Prelude.{IfOk, OnOk, OnErr};
ghost use Rattle.ix_shelf.specs.Shelf.{Files, NoneFalls, with_file, after_append, Rose, IsAbsent};
ghost use Rattle.ix_shelf.specs.Shelf.{ReadsFile};
ghost use Rattle.ix_shelf.specs.Faults.{risen, within, faults_after, IsNamed, TakesNothing};
ghost use Rattle.ix_shelf.specs.MemFiles.{given_at};

use crate::mem_files::{FileMap, add_to_file, copy_at, empty_file, file_in, set_file};
use crate::plan::Plan;
use crate::shelf::{Failed, Shelf};
use ix_num::Memory;
use std::alloc::Global;

/// A shelf that keeps its files in memory, and fails, or takes less, at the calls that it was told
/// to.
///
/// Its calls of `read_at`, `create` and `append` are numbered together from 0. All its counts stay
/// at the end of their type.
#[derive(Drop)]
pub struct MemShelf {
    alloc: Global,
    files: FileMap,
    plan: Plan,
    read_faults: u64,
    write_faults: u64,
    starved: u64,
}

impl MemShelf {
    ghost use Rattle.ix_shelf.specs.MemShelf.{files_of, calls_of, failing_of, nothing_of, limit_of};
    ghost use Rattle.ix_shelf.specs.MemShelf.{read_faults_of, write_faults_of, starved_of};

    /// A shelf with no files, of which no call is to fail, to take nothing or to take less than it
    /// can.
    pub fn new(alloc: Global) -> MemShelf
        ensures files { (name : List ℕ) → files_of result name ≡ None }
        ensures calls { calls_of result ≡ 0 }
        ensures failing { failing_of result ≡ [] }
        ensures nothing { nothing_of result ≡ [] }
        ensures limit { limit_of result ≡ None }
        ensures read_faults { read_faults_of result ≡ 0 }
        ensures write_faults { write_faults_of result ≡ 0 }
        ensures starved { starved_of result ≡ 0 }
    {
        MemShelf {
            alloc,
            files: FileMap::new(alloc),
            plan: Plan::new(alloc),
            read_faults: 0,
            write_faults: 0,
            starved: 0,
        }
    }

    /// Makes the file these bytes, a new one where there is none of that name. This is no call that
    /// can be told to fail. `Memory` leaves all as before.
    pub fn set(&mut self, name: &str, bytes: &[u8]) -> Result<(), Memory>
        ensures ok { OnOk result (files_of self.new
            ≡ with_file name.now bytes.now (files_of self.old)) }
        ensures err { OnErr result (files_of self.new ≡ files_of self.old) }
        ensures calls { calls_of self.new ≡ calls_of self.old }
        ensures failing { failing_of self.new ≡ failing_of self.old }
        ensures nothing { nothing_of self.new ≡ nothing_of self.old }
        ensures limit { limit_of self.new ≡ limit_of self.old }
        ensures read_faults { read_faults_of self.new ≡ read_faults_of self.old }
        ensures write_faults { write_faults_of self.new ≡ write_faults_of self.old }
        ensures starved { starved_of self.new ≡ starved_of self.old }
    {
        set_file(self.alloc, &mut self.files, name, bytes)
    }

    /// The bytes of a file, or `None` where there is none of that name.
    pub fn file(&self, name: &str) -> Option<&[u8]>
        ensures { option_copied result ≡ files_of self.now name.now }
    {
        file_in(&self.files, name)
    }

    /// Lets the call with this number, from 0, fail. `Memory` leaves all as before.
    pub fn fail_at(&mut self, call: u64) -> Result<(), Memory>
        ensures ok { OnOk result (failing_of self.new ≡ failing_of self.old ++ call ∷ []) }
        ensures err { OnErr result (failing_of self.new ≡ failing_of self.old) }
        ensures files { files_of self.new ≡ files_of self.old }
        ensures calls { calls_of self.new ≡ calls_of self.old }
        ensures nothing { nothing_of self.new ≡ nothing_of self.old }
        ensures limit { limit_of self.new ≡ limit_of self.old }
        ensures read_faults { read_faults_of self.new ≡ read_faults_of self.old }
        ensures write_faults { write_faults_of self.new ≡ write_faults_of self.old }
        ensures starved { starved_of self.new ≡ starved_of self.old }
    {
        self.plan.fail_at(call)
    }

    /// Lets the call with this number, from 0, take 0 bytes, and counts a write fault for it, where
    /// it is an append of a piece that isn't empty and `fail_at` doesn't name it. Else this is
    /// without effect. `Memory` leaves all as before.
    pub fn nothing_at(&mut self, call: u64) -> Result<(), Memory>
        ensures ok { OnOk result (nothing_of self.new ≡ nothing_of self.old ++ call ∷ []) }
        ensures err { OnErr result (nothing_of self.new ≡ nothing_of self.old) }
        ensures files { files_of self.new ≡ files_of self.old }
        ensures calls { calls_of self.new ≡ calls_of self.old }
        ensures failing { failing_of self.new ≡ failing_of self.old }
        ensures limit { limit_of self.new ≡ limit_of self.old }
        ensures read_faults { read_faults_of self.new ≡ read_faults_of self.old }
        ensures write_faults { write_faults_of self.new ≡ write_faults_of self.old }
        ensures starved { starved_of self.new ≡ starved_of self.old }
    {
        self.plan.nothing_at(call)
    }

    /// From now on a call takes or gives at most so many bytes, at least one.
    pub fn short(&mut self, most: u32)
        requires { 0 < most }
        ensures most { limit_of self.new ≡ Some most }
        ensures files { files_of self.new ≡ files_of self.old }
        ensures calls { calls_of self.new ≡ calls_of self.old }
        ensures failing { failing_of self.new ≡ failing_of self.old }
        ensures nothing { nothing_of self.new ≡ nothing_of self.old }
        ensures read_faults { read_faults_of self.new ≡ read_faults_of self.old }
        ensures write_faults { write_faults_of self.new ≡ write_faults_of self.old }
        ensures starved { starved_of self.new ≡ starved_of self.old }
    {
        self.plan.short(most);
    }

    /// How many calls failed because memory ran out.
    pub fn starved(&self) -> u64
        ensures { result ≡ starved_of self.now }
    {
        self.starved
    }
}

impl Shelf for MemShelf {
    ghost use Rattle.ix_shelf.specs.MemShelf.{files_of, calls_of, failing_of, nothing_of, limit_of};
    ghost use Rattle.ix_shelf.specs.MemShelf.{read_faults_of, write_faults_of, read_counts_of};
    ghost use Rattle.ix_shelf.specs.MemShelf.{write_counts_of, starved_of};

    ghost files = { λ shelf. Some (files_of shelf) };

    ghost read_faults = { λ shelf. read_counts_of shelf };

    ghost write_faults = { λ shelf. write_counts_of shelf };

    /// As of every shelf. The number of the next call rises by one. A call that is to fail does,
    /// and counts as a read fault; another one fails where there is no such file, which counts as
    /// none, and gives all that its limit lets it else.
    fn read_at(&mut self, name: &str, at: u64, into: &mut [u8]) -> Result<usize, Failed>
        ensures files { Some (files_of self.new) ≡ Some (files_of self.old) }
        ensures write_faults { write_counts_of self.new ≡ write_counts_of self.old }
        ensures read_faults { NoneFalls (read_counts_of self.old) (read_counts_of self.new) }
        ensures room { IfOk result (λ n. n ≤ length into.old) }
        ensures bytes { IfOk result (λ n. ReadsFile (Some (files_of self.old)) name.now at
            (length into.old) into.new n) }
        ensures cause { OnErr result (Rose (read_counts_of self.old name.now)
            (read_counts_of self.new name.now) ⊎ IsAbsent (Some (files_of self.old)) name.now) }

        ensures number { calls_of self.new ≡ risen (calls_of self.old) }
        ensures plan { failing_of self.new ≡ failing_of self.old }
        ensures kept { nothing_of self.new ≡ nothing_of self.old }
        ensures limit { limit_of self.new ≡ limit_of self.old }
        ensures starved { starved_of self.new ≡ starved_of self.old }
        ensures named { IsNamed (failing_of self.old) (calls_of self.old) → IsErr result }
        ensures absent { files_of self.old name.now ≡ None → IsErr result }
        ensures there { ¬ IsNamed (failing_of self.old) (calls_of self.old)
            → IsSome (files_of self.old name.now) → IsOk result }
        ensures given { IfOk result (λ n. n ≡ given_at (files_of self.old name.now) at
            (within (limit_of self.old) (length into.old))) }
        ensures named_count { IsNamed (failing_of self.old) (calls_of self.old)
            → read_faults_of self.new ≡ risen (read_faults_of self.old) }
        ensures other_count { ¬ IsNamed (failing_of self.old) (calls_of self.old)
            → read_faults_of self.new ≡ read_faults_of self.old }
    {
        if self.plan.next_fails() {
            self.read_faults = self.read_faults.saturating_add(1);
            return Err(Failed);
        }
        match file_in(&self.files, name) {
            Some(file) => Ok(copy_at(file, at, self.plan.within(into.len()), into)),
            None => Err(Failed),
        }
    }

    /// As of every shelf. The number of the next call rises by one. A call that is to fail does;
    /// another one makes the file empty, or fails because memory ran out for a new one, which
    /// counts as a write fault and as starved.
    fn create(&mut self, name: &str) -> Result<(), Failed>
        ensures read_faults { read_counts_of self.new ≡ read_counts_of self.old }
        ensures write_faults { NoneFalls (write_counts_of self.old) (write_counts_of self.new) }
        ensures made { OnOk result (Some (files_of self.new)
            ≡ option_map (with_file name.now []) (Some (files_of self.old))) }
        ensures unchanged { OnErr result (Some (files_of self.new) ≡ Some (files_of self.old)) }
        ensures cause { OnErr result (Rose (write_counts_of self.old name.now)
            (write_counts_of self.new name.now)) }

        ensures number { calls_of self.new ≡ risen (calls_of self.old) }
        ensures plan { failing_of self.new ≡ failing_of self.old }
        ensures kept { nothing_of self.new ≡ nothing_of self.old }
        ensures limit { limit_of self.new ≡ limit_of self.old }
        ensures named { IsNamed (failing_of self.old) (calls_of self.old) → IsErr result }
        ensures there { ¬ IsNamed (failing_of self.old) (calls_of self.old)
            → IsSome (files_of self.old name.now) → IsOk result }
        ensures ok_count { OnOk result (write_faults_of self.new ≡ write_faults_of self.old) }
        ensures ok_starved { OnOk result (starved_of self.new ≡ starved_of self.old) }
        ensures err_count { OnErr result (write_faults_of self.new
            ≡ risen (write_faults_of self.old)) }
        ensures named_starved { IsNamed (failing_of self.old) (calls_of self.old)
            → starved_of self.new ≡ starved_of self.old }
        ensures starved { ¬ IsNamed (failing_of self.old) (calls_of self.old)
            → OnErr result (starved_of self.new ≡ risen (starved_of self.old)) }
    {
        if self.plan.next_fails() {
            self.write_faults = self.write_faults.saturating_add(1);
            return Err(Failed);
        }
        match empty_file(self.alloc, &mut self.files, name) {
            Ok(()) => Ok(()),
            Err(_) => {
                self.write_faults = self.write_faults.saturating_add(1);
                self.starved = self.starved.saturating_add(1);
                Err(Failed)
            }
        }
    }

    /// As of every shelf. The number of the next call rises by one. A call that is to fail does,
    /// and one that is to take nothing of a piece that isn't empty takes nothing; another one takes
    /// all of its piece that its limit lets it, or fails because memory ran out for it, which
    /// counts as a write fault and as starved.
    fn append(&mut self, name: &str, piece: &[u8]) -> Result<usize, Failed>
        ensures read_faults { read_counts_of self.new ≡ read_counts_of self.old }
        ensures write_faults { NoneFalls (write_counts_of self.old) (write_counts_of self.new) }
        ensures taken { IfOk result (λ n. n ≤ length piece.now) }
        ensures added { IfOk result (λ n. Some (files_of self.new)
            ≡ option_map (after_append name.now piece.now n) (Some (files_of self.old))) }
        ensures nothing { IfOk result (λ n. n ≡ 0 → 0 < length piece.now
            → Rose (write_counts_of self.old name.now) (write_counts_of self.new name.now)) }
        ensures unchanged { OnErr result (Some (files_of self.new) ≡ Some (files_of self.old)) }
        ensures cause { OnErr result (Rose (write_counts_of self.old name.now)
            (write_counts_of self.new name.now)) }

        ensures number { calls_of self.new ≡ risen (calls_of self.old) }
        ensures plan { failing_of self.new ≡ failing_of self.old }
        ensures kept { nothing_of self.new ≡ nothing_of self.old }
        ensures limit { limit_of self.new ≡ limit_of self.old }
        ensures named { IsNamed (failing_of self.old) (calls_of self.old) → IsErr result }
        ensures takes_nothing { ¬ IsNamed (failing_of self.old) (calls_of self.old)
            → TakesNothing (nothing_of self.old) (calls_of self.old) piece.now → result ≡ Ok 0 }
        ensures takes { ¬ TakesNothing (nothing_of self.old) (calls_of self.old) piece.now
            → IfOk result (λ n. n ≡ within (limit_of self.old) (length piece.now)) }
        ensures there { ¬ IsNamed (failing_of self.old) (calls_of self.old)
            → IsSome (files_of self.old name.now) → length piece.now ≡ 0 → IsOk result }
        ensures count { write_faults_of self.new
            ≡ faults_after result piece.now (write_faults_of self.old) }
        ensures ok_starved { OnOk result (starved_of self.new ≡ starved_of self.old) }
        ensures named_starved { IsNamed (failing_of self.old) (calls_of self.old)
            → starved_of self.new ≡ starved_of self.old }
        ensures starved { ¬ IsNamed (failing_of self.old) (calls_of self.old)
            → OnErr result (starved_of self.new ≡ risen (starved_of self.old)) }
    {
        let nothing = self.plan.next_takes_nothing();
        if self.plan.next_fails() {
            self.write_faults = self.write_faults.saturating_add(1);
            return Err(Failed);
        }
        if nothing && !piece.is_empty() {
            self.write_faults = self.write_faults.saturating_add(1);
            return Ok(0);
        }
        let taken = self.plan.within(piece.len());
        match add_to_file(self.alloc, &mut self.files, name, &piece[..taken]) {
            Ok(()) => Ok(taken),
            Err(_) => {
                self.write_faults = self.write_faults.saturating_add(1);
                self.starved = self.starved.saturating_add(1);
                Err(Failed)
            }
        }
    }
}
