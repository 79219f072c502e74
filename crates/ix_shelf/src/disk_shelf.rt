//! The files of the system as a shelf.

ghost use Rattle.std.specs.Prelude.{◌≡◌, ◌<◌, ◌≤◌, ◌⊎◌, [], length, option_map, IfOk, OnOk, OnErr};
ghost use Rattle.ix_shelf.specs.Shelf.{NoneFalls, with_file, after_append, Rose, IsAbsent};
ghost use Rattle.ix_shelf.specs.Shelf.{ReadsFile};
ghost use Rattle.ix_shelf.specs.Faults.{risen, faults_after};

use crate::shelf::{Failed, Shelf};
use std::fs::{File, Files, OpenOptions};
use std::io;
use std::io::{Read, Seek, SeekFrom, Write};

/// The files of the system, by their paths.
///
/// What a file holds is the system's to say, so this shelf tells contracts no files. It counts each
/// read, create and append that failed, and each append that took nothing of a piece that isn't
/// empty. Its counts stay at the end of their type.
#[derive(Drop)]
pub struct DiskShelf<'a, R> {
    rt: &'a R,
    read_faults: u64,
    write_faults: u64,
}

impl<'a, R: Files> DiskShelf<'a, R> {
    ghost use Rattle.ix_shelf.specs.DiskShelf.{read_faults_of, write_faults_of};

    /// A shelf of the files that the runtime reaches, with no faults.
    pub fn new(rt: &'a R) -> DiskShelf<'a, R>
        ensures read_faults { read_faults_of result ≡ 0 }
        ensures write_faults { write_faults_of result ≡ 0 }
    {
        DiskShelf {
            rt,
            read_faults: 0,
            write_faults: 0,
        }
    }
}

/// Opens the file, goes to the byte `at`, and reads once.
fn read_part<R: Files>(rt: &R, name: &str, at: u64, into: &mut [u8]) -> io::Result<usize>
    ensures { IfOk result (λ n. n ≤ length into.old) }
{
    let mut file = File::open(rt, name)?;
    file.seek(SeekFrom::Start(at))?;
    file.read(into)
}

/// Opens the file for what is added at its end, makes it where there is none, and writes once.
fn append_part<R: Files>(rt: &R, name: &str, piece: &[u8]) -> io::Result<usize>
    ensures { IfOk result (λ n. n ≤ length piece.now) }
{
    let mut file = OpenOptions::new().append(true).create(true).open(rt, name)?;
    file.write(piece)
}

impl<R: Files> Shelf for DiskShelf<'_, R> {
    ghost use Rattle.ix_shelf.specs.DiskShelf.{files_of, read_faults_of, write_faults_of};
    ghost use Rattle.ix_shelf.specs.DiskShelf.{read_counts_of, write_counts_of};

    ghost files = { λ shelf. files_of shelf };

    ghost read_faults = { λ shelf. read_counts_of shelf };

    ghost write_faults = { λ shelf. write_counts_of shelf };

    /// As of every shelf. Where it fails, and only there, the count of read faults rises, by one.
    fn read_at(&mut self, name: &str, at: u64, into: &mut [u8]) -> Result<usize, Failed>
        ensures files { files_of self.new ≡ files_of self.old }
        ensures write_faults { write_counts_of self.new ≡ write_counts_of self.old }
        ensures read_faults { NoneFalls (read_counts_of self.old) (read_counts_of self.new) }
        ensures room { IfOk result (λ n. n ≤ length into.old) }
        ensures bytes { IfOk result (λ n. ReadsFile (files_of self.old) name.now at
            (length into.old) into.new n) }
        ensures cause { OnErr result (Rose (read_counts_of self.old name.now)
            (read_counts_of self.new name.now) ⊎ IsAbsent (files_of self.old) name.now) }

        ensures ok { OnOk result (read_faults_of self.new ≡ read_faults_of self.old) }
        ensures err { OnErr result (read_faults_of self.new ≡ risen (read_faults_of self.old)) }
    {
        match read_part(self.rt, name, at, into) {
            Ok(given) => Ok(given),
            Err(_) => {
                self.read_faults = self.read_faults.saturating_add(1);
                Err(Failed)
            }
        }
    }

    /// As of every shelf. Where it fails, and only there, the count of write faults rises, by one.
    fn create(&mut self, name: &str) -> Result<(), Failed>
        ensures read_faults { read_counts_of self.new ≡ read_counts_of self.old }
        ensures write_faults { NoneFalls (write_counts_of self.old) (write_counts_of self.new) }
        ensures made { OnOk result (files_of self.new
            ≡ option_map (with_file name.now []) (files_of self.old)) }
        ensures unchanged { OnErr result (files_of self.new ≡ files_of self.old) }
        ensures cause { OnErr result (Rose (write_counts_of self.old name.now)
            (write_counts_of self.new name.now)) }

        ensures ok { OnOk result (write_faults_of self.new ≡ write_faults_of self.old) }
        ensures err { OnErr result (write_faults_of self.new ≡ risen (write_faults_of self.old)) }
    {
        match File::create(self.rt, name) {
            Ok(_) => Ok(()),
            Err(_) => {
                self.write_faults = self.write_faults.saturating_add(1);
                Err(Failed)
            }
        }
    }

    /// As of every shelf. Where it fails, or takes nothing of a piece that isn't empty, and only
    /// there, the count of write faults rises, by one.
    fn append(&mut self, name: &str, piece: &[u8]) -> Result<usize, Failed>
        ensures read_faults { read_counts_of self.new ≡ read_counts_of self.old }
        ensures write_faults { NoneFalls (write_counts_of self.old) (write_counts_of self.new) }
        ensures taken { IfOk result (λ n. n ≤ length piece.now) }
        ensures added { IfOk result (λ n. files_of self.new
            ≡ option_map (after_append name.now piece.now n) (files_of self.old)) }
        ensures nothing { IfOk result (λ n. n ≡ 0 → 0 < length piece.now
            → Rose (write_counts_of self.old name.now) (write_counts_of self.new name.now)) }
        ensures unchanged { OnErr result (files_of self.new ≡ files_of self.old) }
        ensures cause { OnErr result (Rose (write_counts_of self.old name.now)
            (write_counts_of self.new name.now)) }

        ensures count { write_faults_of self.new
            ≡ faults_after result piece.now (write_faults_of self.old) }
    {
        match append_part(self.rt, name, piece) {
            Ok(taken) => {
                if taken == 0 && !piece.is_empty() {
                    self.write_faults = self.write_faults.saturating_add(1);
                }
                Ok(taken)
            }
            Err(_) => {
                self.write_faults = self.write_faults.saturating_add(1);
                Err(Failed)
            }
        }
    }
}
