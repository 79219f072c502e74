//! A sink for printed bytes.

ghost use Rattle.std.specs.Prelude.{◌≡◌, ◌<◌, ◌≤◌, ◌+◌, ℕ, List, length, take, Option, IfOk, OnOk};
ghost use Rattle.std.specs.Prelude.{OnErr};
ghost use Rattle.ix_shelf.specs.Shelf.{Rose};
ghost use Rattle.ix_shelf.specs.Sink.{with_bytes, PutsPrefix};

use crate::shelf::Failed;

/// Where the program prints.
///
/// A sink may tell contracts the bytes put so far, or not; which of the two never changes. It
/// counts its faults, and the count never falls. A count that stays at the end of its type stands
/// for one that rose.
pub trait Sink {
    /// The bytes put so far, where the sink tells them.
    ghost told: { Self → Option (List ℕ) };

    /// How often a put has failed.
    ghost faults: { Self → ℕ };

    /// Puts bytes of the front of a piece, and answers how many.
    ///
    /// It fails, or takes nothing of a piece that isn't empty, only where the count of faults rose,
    /// and then puts nothing.
    fn put(&mut self, piece: &[u8]) -> Result<usize, Failed>
        ensures faults { faults self.old ≤ faults self.new }
        ensures taken { IfOk result (λ n. n ≤ length piece.now) }
        ensures put { IfOk result (λ n. told self.new
            ≡ with_bytes (take n piece.now) (told self.old)) }
        ensures nothing { IfOk result (λ n. n ≡ 0 → 0 < length piece.now
            → Rose (faults self.old) (faults self.new)) }
        ensures unchanged { OnErr result (told self.new ≡ told self.old) }
        ensures cause { OnErr result (Rose (faults self.old) (faults self.new)) };
}

/// Puts all the bytes. A put that takes nothing of a piece that isn't empty is a failure too.
///
/// It fails only where the sink's count rose in this call, and then a prefix of the bytes was put.
/// It takes no memory.
pub fn say<O: Sink>(out: &mut O, bytes: &[u8]) -> Result<(), Failed>
    ensures faults { O.faults out.old ≤ O.faults out.new }
    ensures all { OnOk result (O.told out.new ≡ with_bytes bytes.now (O.told out.old)) }
    ensures prefix { OnErr result (PutsPrefix bytes.now (O.told out.old) (O.told out.new)) }
    ensures cause { OnErr result (Rose (O.faults out.old) (O.faults out.new)) }
{
    let mut at = 0;
    while at < bytes.len() {
        let taken = out.put(&bytes[at..])?;
        if taken == 0 {
            return Err(Failed);
        }
        at += taken;
    }
    Ok(())
}
