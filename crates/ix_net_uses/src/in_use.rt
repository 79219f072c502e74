//! The first segment on a site that has no instance.

ghost use Rattle.std.specs.Prelude.{◌≡◌, ◌↔◌, ◌<◌, ◌+◌, ◌^◌, length, slice_get, Some, true, MatchOption};
ghost use Rattle.ix_rec.specs.declared.phys.Phys.{Phys as PhysSeen};
ghost use Rattle.ix_legal.specs.Legal.{IsSmall};
ghost use Rattle.ix_legal.specs.Segments.{segments, segment_at};
ghost use Rattle.ix_legal.specs.Sharing.{SiteInUse, IsInUse};
ghost use Rattle.ix_legal.specs.Spots.{Tells};
ghost use Rattle.ix_uses.specs.Uses.{AreUses};
ghost use Rattle.ix_net_uses.specs.Firsts.{AllInUse, IsFirstOutside};

use ix_legal::Spot;
use ix_rec::{BranchKind, Phys, PhysNet, Segment};
use ix_uses::Uses;

// A net's segment of this number: those of its sources come before those of its stubs.
fn segment_of(net: &PhysNet, number: usize) -> &Segment
    requires { number < length (segments net.now) }
    ensures { segment_at net.now number ≡ Some result.now }
{
    let sources = net.sources.as_slice();
    if number < sources.len() {
        &sources[number].item
    } else {
        &net.stubs.as_slice()[number - sources.len()].item
    }
}

// Whether a segment is a PIP, or its site has an instance.
fn is_in_use(segment: &Segment, uses: &Uses) -> bool
    ensures { (phys : PhysSeen) → AreUses phys uses.now
        → (result ≡ true) ↔ SiteInUse segment.now.kind phys segment.now }
{
    match segment.kind {
        BranchKind::Pip => true,
        _ => uses.has_instance(segment.first),
    }
}

// The first segment of a net on a site that has no instance.
fn first_outside(net: &PhysNet, uses: &Uses) -> Option<u32>
    requires { length (segments net.now) < 2 ^ 32 }
    ensures { (phys : PhysSeen) → AreUses phys uses.now
        → MatchOption result (AllInUse phys net.now (length (segments net.now)))
        (IsFirstOutside phys net.now) }
{
    for number in 0..net.sources.len() + net.stubs.len() {
        if !is_in_use(segment_of(net, number), uses) {
            return Some(number as u32);
        }
    }
    None
}

/// The first segment, in the walk, that is on a site without an instance and isn't a PIP; none
/// exactly where L8 is kept. It takes no memory, and a look-up by number a segment.
pub fn first_out_of_use(phys: &Phys, uses: &Uses) -> Option<Spot>
    requires small { IsSmall phys.now }
    requires uses { AreUses phys.now uses.now }
    ensures told { Tells (IsInUse phys.now) result }
{
    for n in 0..phys.nets.len() {
        if let Some(number) = first_outside(phys.nets.at(n), uses) {
            return Some(Spot::SegmentAt(n as u32, number));
        }
    }
    None
}
