//! The calls of a shelf or a sink in memory, by number: those that are to fail, those that take
//! nothing, and how much a call takes at most.

ghost use Rattle.std.specs.Prelude.{◌≡◌, ◌≤◌, ◌<◌, ◌↔◌, ◌++◌, ◌∷◌, [], Some, None, IsTrue, OnOk};
ghost use Rattle.std.specs.Prelude.{OnErr};
ghost use Rattle.ix_shelf.specs.Faults.{risen, within, IsNamed};

use crate::limit::Limit;
use ix_num::Memory;
use std::alloc::Global;

/// The number of the next call, the numbers of the calls that are to fail and of those that take
/// nothing, and how many bytes a call takes.
#[derive(Drop)]
pub struct Plan {
    calls: u64,
    failing: Vec<u64>,
    nothing: Vec<u64>,
    limit: Limit,
}

impl Plan {
    /// No call so far, none that is to fail or to take nothing, and no limit.
    pub fn new(alloc: Global) -> Plan
        ensures calls { result.calls ≡ 0 }
        ensures failing { result.failing.items ≡ [] }
        ensures nothing { result.nothing.items ≡ [] }
        ensures limit { result.limit ≡ None }
    {
        Plan {
            calls: 0,
            failing: Vec::new(alloc),
            nothing: Vec::new(alloc),
            limit: Limit::none(),
        }
    }

    /// Lets the call with this number fail. `Memory` leaves all as before.
    pub fn fail_at(&mut self, call: u64) -> Result<(), Memory>
        ensures calls { self.new.calls ≡ self.old.calls }
        ensures ok { OnOk result (self.new.failing.items ≡ self.old.failing.items ++ call ∷ []) }
        ensures err { OnErr result (self.new.failing.items ≡ self.old.failing.items) }
        ensures nothing { self.new.nothing.items ≡ self.old.nothing.items }
        ensures limit { self.new.limit ≡ self.old.limit }
    {
        match self.failing.push(call) {
            Ok(()) => Ok(()),
            Err(_) => Err(Memory),
        }
    }

    /// Lets the call with this number take nothing. `Memory` leaves all as before.
    pub fn nothing_at(&mut self, call: u64) -> Result<(), Memory>
        ensures calls { self.new.calls ≡ self.old.calls }
        ensures failing { self.new.failing.items ≡ self.old.failing.items }
        ensures ok { OnOk result (self.new.nothing.items ≡ self.old.nothing.items ++ call ∷ []) }
        ensures err { OnErr result (self.new.nothing.items ≡ self.old.nothing.items) }
        ensures limit { self.new.limit ≡ self.old.limit }
    {
        match self.nothing.push(call) {
            Ok(()) => Ok(()),
            Err(_) => Err(Memory),
        }
    }

    /// Lets a call take so many bytes at most.
    pub fn short(&mut self, most: u32)
        requires { 0 < most }
        ensures calls { self.new.calls ≡ self.old.calls }
        ensures failing { self.new.failing.items ≡ self.old.failing.items }
        ensures nothing { self.new.nothing.items ≡ self.old.nothing.items }
        ensures limit { self.new.limit ≡ Some most }
    {
        self.limit = Limit::new(most);
    }

    /// Whether the next call takes nothing.
    pub fn next_takes_nothing(&self) -> bool
        ensures { IsTrue result ↔ IsNamed self.now.nothing.items self.now.calls }
    {
        self.nothing.contains(&self.calls)
    }

    /// How many of so many bytes a call takes.
    pub fn within(&self, size: usize) -> usize
        ensures size { result ≡ within self.now.limit size }
        ensures most { result ≤ size }
        ensures some { 0 < size → 0 < result }
    {
        self.limit.within(size)
    }

    /// Counts one more call, and says whether it is to fail.
    pub fn next_fails(&mut self) -> bool
        ensures calls { self.new.calls ≡ risen self.old.calls }
        ensures failing { self.new.failing.items ≡ self.old.failing.items }
        ensures nothing { self.new.nothing.items ≡ self.old.nothing.items }
        ensures limit { self.new.limit ≡ self.old.limit }
        ensures named { IsTrue result ↔ IsNamed self.old.failing.items self.old.calls }
    {
        let call = self.calls;
        self.calls = call.saturating_add(1);
        self.failing.contains(&call)
    }
}
