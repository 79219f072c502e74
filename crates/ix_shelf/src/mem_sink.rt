//! A sink in memory.

ghost use Rattle.std.specs.Prelude.{◌≡◌, ◌<◌, ◌≤◌, ◌++◌, ◌∷◌, [], ℕ, List, length, take, Option};
ghost use Rattle.std.specs.Prelude.{Some, None, Ok, IsOk, IsErr, IfOk, OnOk, OnErr};
ghost use Rattle.ix_shelf.specs.Shelf.{Rose};
ghost use Rattle.ix_shelf.specs.Sink.{with_bytes};
ghost use Rattle.ix_shelf.specs.Faults.{risen, within, faults_after, IsNamed, TakesNothing};

use crate::plan::Plan;
use crate::shelf::Failed;
use crate::sink::Sink;
use ix_num::Memory;
use std::alloc::Global;

/// A sink that keeps its bytes in memory, and fails, or takes less, at the calls that it was told
/// to.
///
/// Its calls of `put` are numbered from 0. All its counts stay at the end of their type.
#[derive(Drop)]
pub struct MemSink {
    bytes: Vec<u8>,
    plan: Plan,
    faults: u64,
    starved: u64,
}

impl MemSink {
    ghost use Rattle.ix_shelf.specs.MemSink.{bytes_of, calls_of, failing_of, nothing_of, limit_of};
    ghost use Rattle.ix_shelf.specs.MemSink.{faults_of, starved_of};

    /// A sink with no bytes, of which no call is to fail, to take nothing or to take less than it
    /// can.
    pub fn new(alloc: Global) -> MemSink
        ensures bytes { bytes_of result ≡ [] }
        ensures calls { calls_of result ≡ 0 }
        ensures failing { failing_of result ≡ [] }
        ensures nothing { nothing_of result ≡ [] }
        ensures limit { limit_of result ≡ None }
        ensures faults { faults_of result ≡ 0 }
        ensures starved { starved_of result ≡ 0 }
    {
        MemSink {
            bytes: Vec::new(alloc),
            plan: Plan::new(alloc),
            faults: 0,
            starved: 0,
        }
    }

    /// The bytes put so far.
    pub fn bytes(&self) -> &[u8]
        ensures { result.now ≡ bytes_of self.now }
    {
        self.bytes.as_slice()
    }

    /// Lets the call with this number, from 0, fail. `Memory` leaves all as before.
    pub fn fail_at(&mut self, call: u64) -> Result<(), Memory>
        ensures ok { OnOk result (failing_of self.new ≡ failing_of self.old ++ call ∷ []) }
        ensures err { OnErr result (failing_of self.new ≡ failing_of self.old) }
        ensures bytes { bytes_of self.new ≡ bytes_of self.old }
        ensures calls { calls_of self.new ≡ calls_of self.old }
        ensures nothing { nothing_of self.new ≡ nothing_of self.old }
        ensures limit { limit_of self.new ≡ limit_of self.old }
        ensures faults { faults_of self.new ≡ faults_of self.old }
        ensures starved { starved_of self.new ≡ starved_of self.old }
    {
        self.plan.fail_at(call)
    }

    /// Lets the call with this number, from 0, take 0 bytes, and counts a fault for it, where its
    /// piece isn't empty and `fail_at` doesn't name it. Else this is without effect. `Memory`
    /// leaves all as before.
    pub fn nothing_at(&mut self, call: u64) -> Result<(), Memory>
        ensures ok { OnOk result (nothing_of self.new ≡ nothing_of self.old ++ call ∷ []) }
        ensures err { OnErr result (nothing_of self.new ≡ nothing_of self.old) }
        ensures bytes { bytes_of self.new ≡ bytes_of self.old }
        ensures calls { calls_of self.new ≡ calls_of self.old }
        ensures failing { failing_of self.new ≡ failing_of self.old }
        ensures limit { limit_of self.new ≡ limit_of self.old }
        ensures faults { faults_of self.new ≡ faults_of self.old }
        ensures starved { starved_of self.new ≡ starved_of self.old }
    {
        self.plan.nothing_at(call)
    }

    /// From now on a call takes at most so many bytes, at least one.
    pub fn short(&mut self, most: u32)
        requires { 0 < most }
        ensures most { limit_of self.new ≡ Some most }
        ensures bytes { bytes_of self.new ≡ bytes_of self.old }
        ensures calls { calls_of self.new ≡ calls_of self.old }
        ensures failing { failing_of self.new ≡ failing_of self.old }
        ensures nothing { nothing_of self.new ≡ nothing_of self.old }
        ensures faults { faults_of self.new ≡ faults_of self.old }
        ensures starved { starved_of self.new ≡ starved_of self.old }
    {
        self.plan.short(most);
    }

    /// How many calls failed because memory ran out.
    pub fn starved(&self) -> u64
        ensures { result ≡ starved_of self.now }
    {
        self.starved
    }
}

impl Sink for MemSink {
    ghost use Rattle.ix_shelf.specs.MemSink.{bytes_of, calls_of, failing_of, nothing_of, limit_of};
    ghost use Rattle.ix_shelf.specs.MemSink.{faults_of, starved_of};

    ghost told = { λ sink. Some (bytes_of sink) };

    ghost faults = { λ sink. faults_of sink };

    /// As of every sink. The number of the next call rises by one. A call that is to fail does, and
    /// one that is to take nothing of a piece that isn't empty takes nothing; another one takes all
    /// of its piece that its limit lets it, or fails because memory ran out, which counts as a
    /// fault and as starved.
    fn put(&mut self, piece: &[u8]) -> Result<usize, Failed>
        ensures faults { faults_of self.old ≤ faults_of self.new }
        ensures taken { IfOk result (λ n. n ≤ length piece.now) }
        ensures put { IfOk result (λ n. Some (bytes_of self.new)
            ≡ with_bytes (take n piece.now) (Some (bytes_of self.old))) }
        ensures nothing { IfOk result (λ n. n ≡ 0 → 0 < length piece.now
            → Rose (faults_of self.old) (faults_of self.new)) }
        ensures unchanged { OnErr result (Some (bytes_of self.new) ≡ Some (bytes_of self.old)) }
        ensures cause { OnErr result (Rose (faults_of self.old) (faults_of self.new)) }

        ensures number { calls_of self.new ≡ risen (calls_of self.old) }
        ensures plan { failing_of self.new ≡ failing_of self.old }
        ensures kept { nothing_of self.new ≡ nothing_of self.old }
        ensures limit { limit_of self.new ≡ limit_of self.old }
        ensures named { IsNamed (failing_of self.old) (calls_of self.old) → IsErr result }
        ensures takes_nothing { ¬ IsNamed (failing_of self.old) (calls_of self.old)
            → TakesNothing (nothing_of self.old) (calls_of self.old) piece.now → result ≡ Ok 0 }
        ensures takes { ¬ TakesNothing (nothing_of self.old) (calls_of self.old) piece.now
            → IfOk result (λ n. n ≡ within (limit_of self.old) (length piece.now)) }
        ensures empty { ¬ IsNamed (failing_of self.old) (calls_of self.old) → length piece.now ≡ 0
            → IsOk result }
        ensures count { faults_of self.new ≡ faults_after result piece.now (faults_of self.old) }
        ensures ok_starved { OnOk result (starved_of self.new ≡ starved_of self.old) }
        ensures named_starved { IsNamed (failing_of self.old) (calls_of self.old)
            → starved_of self.new ≡ starved_of self.old }
        ensures starved { ¬ IsNamed (failing_of self.old) (calls_of self.old)
            → OnErr result (starved_of self.new ≡ risen (starved_of self.old)) }
    {
        let nothing = self.plan.next_takes_nothing();
        if self.plan.next_fails() {
            self.faults = self.faults.saturating_add(1);
            return Err(Failed);
        }
        if nothing && !piece.is_empty() {
            self.faults = self.faults.saturating_add(1);
            return Ok(0);
        }
        let taken = self.plan.within(piece.len());
        match self.bytes.extend_from_slice(&piece[..taken]) {
            Ok(()) => Ok(taken),
            Err(_) => {
                self.faults = self.faults.saturating_add(1);
                self.starved = self.starved.saturating_add(1);
                Err(Failed)
            }
        }
    }
}
