//! The first element that breaks L9.

ghost use Rattle.std.specs.Prelude.{◌≡◌, ◌<◌, ◌+◌, length};
ghost use Rattle.std.specs.Bool.{Decides};
ghost use Rattle.ix_ends.specs.Ends.{AreEnds};
ghost use Rattle.ix_holders.specs.Holders.{AreHolders};
ghost use Rattle.ix_element_numbers.specs.Numbers.{IsInElement};
ghost use Rattle.ix_element_tables.specs.Kept.{KeepsTableAt};
ghost use Rattle.ix_element_tables.specs.Least.{IsEarlier, IsLeast};
ghost use Rattle.ix_element_tables.specs.Noted.{AreNoted, IsReady};
ghost use Rattle.ix_element_tables.specs.Sharing.{KeepsSharing};

use crate::netlist::Netlist;
use crate::noted::NotedTables;
use ix_element_numbers::{InElement, instance_is_one};
use ix_placed_luts::function_of;

// Whether an element comes before another in the walk. Where there is no other it does.
fn is_earlier(at: InElement, other: Option<InElement>) -> bool
    ensures { Decides result (IsEarlier at.instance at.element other) }
{
    match other {
        None => true,
        Some(other) => {
            at.instance < other.instance
                || (at.instance == other.instance && at.element < other.element)
        }
    }
}

// Whether the element of a placement has no LUT, or the table of the element gives the placed cell
// a function. A plain cell has none.
fn keeps_table(on: &Netlist<'_>, tables: &NotedTables, placement: usize, at: InElement) -> bool
    requires ready { IsReady on.now.names.now on.now.device.now on.now.phys.now on.now.places.now
        on.now.numbers.now }
    requires ends { AreEnds on.now.device.now on.now.phys.now on.now.ends.now }
    requires holders { AreHolders on.now.device.now on.now.phys.now on.now.ends.now
        on.now.holders.now }
    requires unshared { KeepsSharing on.now.device.now on.now.phys.now }
    requires noted { AreNoted on.now.names.now on.now.device.now on.now.phys.now
        on.now.numbers.now (length on.now.phys.now.placements) tables.now }
    requires inside { placement < length on.now.phys.now.placements }
    requires element { IsInElement on.now.device.now on.now.phys.now placement at }
    requires within { at.number < on.now.numbers.now.count }
    ensures { Decides result (KeepsTableAt on.now.names.now on.now.device.now on.now.phys.now
        placement at.element) }
{
    match tables.get(at.number) {
        None => true,
        Some(None) => false,
        Some(Some(bits)) => function_of(
            on.device,
            on.places,
            on.phys,
            on.ends,
            on.holders,
            on.phys.placements.at(placement),
            bits,
        )
        .is_some(),
    }
}

// The first break of the elements of one placement more.
fn with_placement(
    on: &Netlist<'_>,
    tables: &NotedTables,
    first: Option<InElement>,
    placement: usize,
) -> Option<InElement>
    requires ready { IsReady on.now.names.now on.now.device.now on.now.phys.now on.now.places.now
        on.now.numbers.now }
    requires ends { AreEnds on.now.device.now on.now.phys.now on.now.ends.now }
    requires holders { AreHolders on.now.device.now on.now.phys.now on.now.ends.now
        on.now.holders.now }
    requires unshared { KeepsSharing on.now.device.now on.now.phys.now }
    requires noted { AreNoted on.now.names.now on.now.device.now on.now.phys.now
        on.now.numbers.now (length on.now.phys.now.placements) tables.now }
    requires inside { placement < length on.now.phys.now.placements }
    requires first { IsLeast on.now.names.now on.now.device.now on.now.phys.now placement first }
    ensures { IsLeast on.now.names.now on.now.device.now on.now.phys.now (placement + 1) result }
{
    let Some(at) = on.numbers.find(on.device, on.phys, placement) else {
        return first;
    };
    instance_is_one();
    if is_earlier(at, first) && !keeps_table(on, tables, placement, at) {
        return Some(at);
    }
    first
}

/// The first element that breaks L9.
pub(crate) fn first_break(on: &Netlist<'_>, tables: &NotedTables) -> Option<InElement>
    requires ready { IsReady on.now.names.now on.now.device.now on.now.phys.now on.now.places.now
        on.now.numbers.now }
    requires ends { AreEnds on.now.device.now on.now.phys.now on.now.ends.now }
    requires holders { AreHolders on.now.device.now on.now.phys.now on.now.ends.now
        on.now.holders.now }
    requires unshared { KeepsSharing on.now.device.now on.now.phys.now }
    requires noted { AreNoted on.now.names.now on.now.device.now on.now.phys.now
        on.now.numbers.now (length on.now.phys.now.placements) tables.now }
    ensures { IsLeast on.now.names.now on.now.device.now on.now.phys.now
        (length on.now.phys.now.placements) result }
{
    let mut first = None;
    for placement in 0..on.phys.placements.len() {
        first = with_placement(on, tables, first, placement);
    }
    first
}
