//! The verdict on a netlist.

ghost use Rattle.std.specs.Prelude.{◌≡◌, ◌≤◌, ◌<◌, ◌+◌, ◌-◌, ◌*◌, ◌^◌, length, map, IfOk};
ghost use Rattle.ix_device_read.specs.Named.{DeviceNamed};
ghost use Rattle.ix_flat.specs.Range.{IsInRange, IsNamed};
ghost use Rattle.ix_flat.specs.Whole.{AllDiffer, IsWhole};
ghost use Rattle.ix_graph.specs.Graph.{graph_of};
ghost use Rattle.ix_legal.specs.Legal.{IsSound, Legal, most_entries};
ghost use Rattle.ix_strings.specs.Names.{KeepsNumbers};
ghost use Rattle.ix_check.specs.Checked.{IsVerdict};
ghost use Rattle.ix_check.specs.Wrong.{IsCompared, TellsWrong};

use crate::derived::is_derived;
use crate::verdict::Verdict;
use ix_device::Device;
use ix_differences::first_difference;
use ix_extract::extract_on;
use ix_fill_tables::fill_tables_on;
use ix_graph::NodeGraph;
use ix_legal::Level;
use ix_num::Memory;
use ix_read_laws::{devices_stay_named, flats_stay_named};
use ix_rec::{Flat, Phys, Place, Rule};
use ix_rules::first_broken;
use ix_strings::Names;
use std::alloc::Global;

// The first difference between the design that a legal netlist realizes and the flat one.
fn first_unlike(
    alloc: Global,
    device: &Device,
    graph: &NodeGraph,
    flat: &Flat,
    phys: &Phys,
    names: &Names,
    level: Level,
) -> Result<Option<(Rule, Place)>, Memory>
    requires graph { graph.now ≡ graph_of device.now }
    requires legal { Legal level names.now device.now phys.now }
    requires device { DeviceNamed (length names.now) device.now }
    requires range { IsInRange device.now flat.now }
    requires named { IsNamed (length names.now) flat.now }
    requires differ { AllDiffer (map (λ cell. cell.name) flat.now.cells) }
    ensures { IfOk result (IsCompared names.now device.now phys.now flat.now) }
{
    match extract_on(alloc, device, graph, phys, names, level)? {
        Some(extracted) => first_difference(alloc, &extracted, flat, names),
        // Each LUT of a legal netlist has a function.
        None => unreachable!(),
    }
}

// The first rule that a completed netlist breaks, or the first difference.
fn first_wrong(
    alloc: Global,
    device: &Device,
    graph: &NodeGraph,
    flat: &Flat,
    phys: &Phys,
    names: &Names,
    level: Level,
) -> Result<Option<(Rule, Place)>, Memory>
    requires graph { graph.now ≡ graph_of device.now }
    requires sound { IsSound names.now phys.now }
    requires device { DeviceNamed (length names.now) device.now }
    requires range { IsInRange device.now flat.now }
    requires named { IsNamed (length names.now) flat.now }
    requires differ { AllDiffer (map (λ cell. cell.name) flat.now.cells) }
    ensures { IfOk result (TellsWrong level names.now device.now phys.now flat.now) }
{
    match first_broken(alloc, device, graph, phys, names, level)? {
        None => first_unlike(alloc, device, graph, flat, phys, names, level),
        Some(broken) => Ok(Some(broken)),
    }
}

/// What is told of a physical netlist that is checked against a flat design: that, completed by
/// tables where it has none, it breaks no rule of its level and realizes the flat design; or the
/// least of the rules L1 to L10 and E1 to E3 that it breaks, with its first place.
///
/// The graph is built of the device here. At most two names a placement are added.
///
/// # Errors
///
/// Want of memory.
pub fn check_netlist(
    alloc: Global,
    device: &Device,
    flat: &Flat,
    phys: Phys,
    names: &mut Names,
    level: Level,
) -> Result<Verdict, Memory>
    requires device { DeviceNamed (length names.old) device.now }
    requires range { IsInRange device.now flat.now }
    requires named { IsNamed (length names.old) flat.now }
    requires whole { IsWhole names.old device.now flat.now }
    requires sound { IsSound names.old phys }
    requires few { length phys.placements + length phys.properties ≤ most_entries }
    requires room { length names.old + 2 * length phys.placements < 2 ^ 32 - 1 }
    ensures verdict { IfOk result (IsVerdict level names.new device.now phys flat.now) }
    ensures keeps { KeepsNumbers names.old names.new }
{
    devices_stay_named();
    flats_stay_named();
    let derived = is_derived(device, &phys, names);
    let graph = NodeGraph::build(alloc, device)?;
    let completed = fill_tables_on(alloc, device, &graph, flat, phys, names)?;
    // That no two names are alike is what the table tells with their number.
    let _count = names.len();
    match first_wrong(alloc, device, &graph, flat, &completed, names, level)? {
        None => Ok(Verdict::Yes { derived }),
        Some((rule, place)) => Ok(Verdict::No { rule, place }),
    }
}
