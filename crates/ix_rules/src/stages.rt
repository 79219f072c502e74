//! The rules whose passes leave tables: L1, L2 and L7.

ghost use Rattle.std.specs.Prelude.{◌≡◌, IfOk};
ghost use Rattle.ix_graph.specs.Graph.{graph_of};
ghost use Rattle.ix_legal.specs.Legal.{IsSound};
ghost use Rattle.ix_ends.specs.Ends.{AreEnds};
ghost use Rattle.ix_holders.specs.Holders.{AreHolders};
ghost use Rattle.ix_uses.specs.Uses.{AreUses};
ghost use Rattle.ix_rules.specs.Stages.{IsVerdict, KeepsUpTo};

use crate::fault::{Fault, told};
use crate::netlist::Netlist;
use ix_ends::{Ends, EndsFault};
use ix_holders::{Holders, SharingFault};
use ix_legal::Spot;
use ix_named_there::first_unnamed;
use ix_rec::Rule;
use ix_uses::{Uses, UsesFault};
use std::alloc::Global;

/// The ends of the netlist's segments, where it keeps L1.
pub(crate) fn ends_of(alloc: Global, on: &Netlist<'_>) -> Result<Ends, Fault>
    requires graph { on.now.graph.now ≡ graph_of on.now.device.now }
    requires sound { IsSound on.now.names.now on.now.phys.now }
    ensures ends { IfOk result (AreEnds on.now.device.now on.now.phys.now) }
    ensures verdict { IsVerdict on.now.level on.now.names.now on.now.device.now on.now.phys.now 1
        result }
{
    match Ends::new(alloc, on.device, on.graph, on.phys) {
        Ok(ends) => {
            let first = first_unnamed(alloc, on.device, on.phys, on.names, None)?;
            told(Rule::L1, first)?;
            Ok(ends)
        }
        Err(EndsFault::NoEnds(net, segment)) => {
            let without_ends = Some((net, segment));
            match first_unnamed(alloc, on.device, on.phys, on.names, without_ends)? {
                Some(spot) => Err(Fault::Broken(Rule::L1, spot)),
                // A segment without ends breaks L1.
                None => unreachable!(),
            }
        }
        Err(EndsFault::Memory) => Err(Fault::Memory),
    }
}

/// The uses of the netlist, where it keeps L2.
pub(crate) fn uses_of(alloc: Global, on: &Netlist<'_>) -> Result<Uses, Fault>
    requires sound { IsSound on.now.names.now on.now.phys.now }
    requires kept { KeepsUpTo on.now.level on.now.names.now on.now.device.now on.now.phys.now 1 }
    ensures uses { IfOk result (AreUses on.now.phys.now) }
    ensures verdict { IsVerdict on.now.level on.now.names.now on.now.device.now on.now.phys.now 2
        result }
{
    match Uses::new(alloc, on.device, on.phys, on.names) {
        Ok(uses) => Ok(uses),
        Err(UsesFault::Broken(spot)) => Err(Fault::Broken(Rule::L2, spot)),
        Err(UsesFault::Memory) => Err(Fault::Memory),
    }
}

/// The holders of the netlist's resources, where it keeps L7.
pub(crate) fn holders_of(alloc: Global, on: &Netlist<'_>, ends: &Ends) -> Result<Holders, Fault>
    requires graph { on.now.graph.now ≡ graph_of on.now.device.now }
    requires sound { IsSound on.now.names.now on.now.phys.now }
    requires ends { AreEnds on.now.device.now on.now.phys.now ends.now }
    requires kept { KeepsUpTo on.now.level on.now.names.now on.now.device.now on.now.phys.now 6 }
    ensures holders { IfOk result (AreHolders on.now.device.now on.now.phys.now ends.now) }
    ensures verdict { IsVerdict on.now.level on.now.names.now on.now.device.now on.now.phys.now 7
        result }
{
    match Holders::new(alloc, on.device, on.graph, on.phys, ends, on.level) {
        Ok(holders) => Ok(holders),
        Err(SharingFault::Shared(net, segment)) => {
            let spot = Spot::SegmentAt(net, segment);
            Err(Fault::Broken(Rule::L7, spot))
        }
        Err(SharingFault::Memory) => Err(Fault::Memory),
    }
}
