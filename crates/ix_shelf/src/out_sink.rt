//! Standard output as a sink.

ghost use Rattle.std.specs.Prelude.{◌≡◌, ◌<◌, ◌≤◌, length, take, IfOk, OnErr};
ghost use Rattle.ix_shelf.specs.Shelf.{Rose};
ghost use Rattle.ix_shelf.specs.Sink.{with_bytes};
ghost use Rattle.ix_shelf.specs.Faults.{faults_after};

use crate::shelf::Failed;
use crate::sink::Sink;
use std::io;
use std::io::{Print, Write};

/// Standard output.
///
/// Nobody can ask it what it was given, so this sink tells contracts no bytes. It counts each put
/// that failed or took nothing of a piece that isn't empty. The count stays at the end of its type.
#[derive(Drop)]
pub struct OutSink<'a, R> {
    rt: &'a R,
    faults: u64,
}

impl<'a, R: Print> OutSink<'a, R> {
    ghost use Rattle.ix_shelf.specs.OutSink.{faults_of};

    /// The output that the runtime prints to, with no faults.
    pub fn new(rt: &'a R) -> OutSink<'a, R>
        ensures { faults_of result ≡ 0 }
    {
        OutSink { rt, faults: 0 }
    }
}

/// Writes once, and flushes what was written, so that none of it is lost where the program ends.
fn write_part<R: Print>(rt: &R, piece: &[u8]) -> io::Result<usize>
    ensures { IfOk result (λ n. n ≤ length piece.now) }
{
    let mut out = io::writer(rt);
    let taken = out.write(piece)?;
    out.flush()?;
    Ok(taken)
}

impl<R: Print> Sink for OutSink<'_, R> {
    ghost use Rattle.ix_shelf.specs.OutSink.{told_of, faults_of};

    ghost told = { λ sink. told_of sink };

    ghost faults = { λ sink. faults_of sink };

    /// As of every sink. Where it fails, or takes nothing of a piece that isn't empty, and only
    /// there, the count of faults rises, by one.
    fn put(&mut self, piece: &[u8]) -> Result<usize, Failed>
        ensures faults { faults_of self.old ≤ faults_of self.new }
        ensures taken { IfOk result (λ n. n ≤ length piece.now) }
        ensures put { IfOk result (λ n. told_of self.new
            ≡ with_bytes (take n piece.now) (told_of self.old)) }
        ensures nothing { IfOk result (λ n. n ≡ 0 → 0 < length piece.now
            → Rose (faults_of self.old) (faults_of self.new)) }
        ensures unchanged { OnErr result (told_of self.new ≡ told_of self.old) }
        ensures cause { OnErr result (Rose (faults_of self.old) (faults_of self.new)) }

        ensures count { faults_of self.new ≡ faults_after result piece.now (faults_of self.old) }
    {
        match write_part(self.rt, piece) {
            Ok(taken) => {
                if taken == 0 && !piece.is_empty() {
                    self.faults = self.faults.saturating_add(1);
                }
                Ok(taken)
            }
            Err(_) => {
                self.faults = self.faults.saturating_add(1);
                Err(Failed)
            }
        }
    }
}
