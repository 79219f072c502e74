//! The rules in turn. A function that makes a table hands it on to one that looks at it.

ghost use Rattle.std.specs.Prelude.{◌≡◌};
ghost use Rattle.ix_graph.specs.Graph.{graph_of};
ghost use Rattle.ix_legal.specs.Legal.{IsSound};
ghost use Rattle.ix_ends.specs.Ends.{AreEnds};
ghost use Rattle.ix_holders.specs.Holders.{AreHolders};
ghost use Rattle.ix_lut_places.specs.Places.{ArePlaces};
ghost use Rattle.ix_uses.specs.Uses.{AreUses};
ghost use Rattle.ix_rules.specs.Stages.{IsVerdict, KeepsUpTo};

use crate::fault::{Fault, told};
use crate::netlist::Netlist;
use crate::stages::{ends_of, holders_of, uses_of};
use ix_element_tables::first_without_function;
use ix_ends::Ends;
use ix_holders::Holders;
use ix_lut_places::LutPlaces;
use ix_net_trees::{first_rejoining, first_unjoined, first_unrooted};
use ix_net_uses::{first_out_of_use, first_stub};
use ix_pin_maps::first_misfit;
use ix_rec::Rule;
use ix_uses::Uses;
use std::alloc::Global;

// L8 to L10.
fn judge_uses(
    alloc: Global,
    on: &Netlist<'_>,
    ends: &Ends,
    uses: &Uses,
    places: &LutPlaces,
    holders: &Holders,
) -> Result<(), Fault>
    requires sound { IsSound on.now.names.now on.now.phys.now }
    requires ends { AreEnds on.now.device.now on.now.phys.now ends.now }
    requires uses { AreUses on.now.phys.now uses.now }
    requires places { ArePlaces on.now.device.now places.now }
    requires holders { AreHolders on.now.device.now on.now.phys.now ends.now holders.now }
    requires kept { KeepsUpTo on.now.level on.now.names.now on.now.device.now on.now.phys.now 7 }
    ensures { IsVerdict on.now.level on.now.names.now on.now.device.now on.now.phys.now 10 result }
{
    told(Rule::L8, first_out_of_use(on.phys, uses))?;
    let first = first_without_function(alloc, on.device, on.phys, on.names, places, ends, holders)?;
    told(Rule::L9, first)?;
    told(Rule::L10, first_stub(on.phys, on.level))
}

// L3 to L6.
fn judge_trees(
    alloc: Global,
    on: &Netlist<'_>,
    ends: &Ends,
    uses: &Uses,
    places: &LutPlaces,
) -> Result<(), Fault>
    requires graph { on.now.graph.now ≡ graph_of on.now.device.now }
    requires sound { IsSound on.now.names.now on.now.phys.now }
    requires ends { AreEnds on.now.device.now on.now.phys.now ends.now }
    requires uses { AreUses on.now.phys.now uses.now }
    requires places { ArePlaces on.now.device.now places.now }
    requires kept { KeepsUpTo on.now.level on.now.names.now on.now.device.now on.now.phys.now 2 }
    ensures { IsVerdict on.now.level on.now.names.now on.now.device.now on.now.phys.now 6 result }
{
    let first = first_misfit(alloc, on.device, places, on.phys, on.names)?;
    told(Rule::L3, first)?;
    let first = first_unjoined(alloc, on.device, on.phys, ends)?;
    told(Rule::L4, first)?;
    let first = first_unrooted(alloc, on.device, on.graph, on.phys, ends, uses)?;
    told(Rule::L5, first)?;
    let first = first_rejoining(alloc, on.device, on.graph, on.phys, ends)?;
    told(Rule::L6, first)
}

// L3 to L10.
fn judge_with_places(
    alloc: Global,
    on: &Netlist<'_>,
    ends: &Ends,
    uses: &Uses,
    places: &LutPlaces,
) -> Result<(), Fault>
    requires graph { on.now.graph.now ≡ graph_of on.now.device.now }
    requires sound { IsSound on.now.names.now on.now.phys.now }
    requires ends { AreEnds on.now.device.now on.now.phys.now ends.now }
    requires uses { AreUses on.now.phys.now uses.now }
    requires places { ArePlaces on.now.device.now places.now }
    requires kept { KeepsUpTo on.now.level on.now.names.now on.now.device.now on.now.phys.now 2 }
    ensures { IsVerdict on.now.level on.now.names.now on.now.device.now on.now.phys.now 10 result }
{
    judge_trees(alloc, on, ends, uses, places)?;
    let holders = holders_of(alloc, on, ends)?;
    judge_uses(alloc, on, ends, uses, places, &holders)
}

// L3 to L10, without the LUTs of the device yet.
fn judge_with_uses(alloc: Global, on: &Netlist<'_>, ends: &Ends, uses: &Uses) -> Result<(), Fault>
    requires graph { on.now.graph.now ≡ graph_of on.now.device.now }
    requires sound { IsSound on.now.names.now on.now.phys.now }
    requires ends { AreEnds on.now.device.now on.now.phys.now ends.now }
    requires uses { AreUses on.now.phys.now uses.now }
    requires kept { KeepsUpTo on.now.level on.now.names.now on.now.device.now on.now.phys.now 2 }
    ensures { IsVerdict on.now.level on.now.names.now on.now.device.now on.now.phys.now 10 result }
{
    let places = LutPlaces::new(alloc, on.device)?;
    judge_with_places(alloc, on, ends, uses, &places)
}

// L2 to L10.
fn judge_with_ends(alloc: Global, on: &Netlist<'_>, ends: &Ends) -> Result<(), Fault>
    requires graph { on.now.graph.now ≡ graph_of on.now.device.now }
    requires sound { IsSound on.now.names.now on.now.phys.now }
    requires ends { AreEnds on.now.device.now on.now.phys.now ends.now }
    requires kept { KeepsUpTo on.now.level on.now.names.now on.now.device.now on.now.phys.now 1 }
    ensures { IsVerdict on.now.level on.now.names.now on.now.device.now on.now.phys.now 10 result }
{
    let uses = uses_of(alloc, on)?;
    judge_with_uses(alloc, on, ends, &uses)
}

/// The least rule that a netlist breaks at its level, and the first place at which it does.
pub(crate) fn judge(alloc: Global, on: &Netlist<'_>) -> Result<(), Fault>
    requires graph { on.now.graph.now ≡ graph_of on.now.device.now }
    requires sound { IsSound on.now.names.now on.now.phys.now }
    ensures { IsVerdict on.now.level on.now.names.now on.now.device.now on.now.phys.now 10 result }
{
    let ends = ends_of(alloc, on)?;
    judge_with_ends(alloc, on, &ends)
}
