//! The first stub of a routed netlist.

ghost use Rattle.std.specs.Prelude.{◌≡◌, ◌<◌};
ghost use Rattle.ix_legal.specs.Legal.{IsSmall};
ghost use Rattle.ix_legal.specs.Sharing.{IsRouted};
ghost use Rattle.ix_legal.specs.Spots.{Tells};

use ix_legal::{Level, Spot};
use ix_rec::Phys;

// The root of the first stub.
fn first_of_all(phys: &Phys) -> Option<Spot>
    requires small { IsSmall phys.now }
    ensures told { Tells (IsRouted Level.Routed phys.now) result }
{
    for n in 0..phys.nets.len() {
        let net = phys.nets.at(n);
        if net.stubs.len() > 0 {
            return Some(Spot::SegmentAt(n as u32, net.sources.len() as u32));
        }
    }
    None
}

/// The root of the first stub of a netlist that is to be routed; none exactly where L10 is kept. At
/// level placed nothing is asked. It takes no memory, and a step a net.
pub fn first_stub(phys: &Phys, level: Level) -> Option<Spot>
    requires small { IsSmall phys.now }
    ensures told { Tells (IsRouted level phys.now) result }
{
    match level {
        Level::Placed => None,
        Level::Routed => first_of_all(phys),
    }
}
