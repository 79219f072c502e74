//! The design that a netlist realizes.

ghost use Rattle.std.specs.Prelude.{◌≡◌, length, IfOk, IfSome};
ghost use Rattle.ix_device_read.specs.Named.{DeviceNamed};
ghost use Rattle.ix_flat.specs.Range.{IsInRange, IsNamed};
ghost use Rattle.ix_graph.specs.Graph.{graph_of};
ghost use Rattle.ix_legal.specs.Legal.{IsSound};
ghost use Rattle.ix_legal.specs.Names as legal;
ghost use Rattle.ix_legal.specs.Sharing.{IsUnshared};
ghost use Rattle.ix_legal.specs.Spots.{Everywhere};
ghost use Rattle.ix_legal.specs.declared.level.Level.TheVariants.{Placed};
ghost use Rattle.ix_ends.specs.Ends.{AreEnds};
ghost use Rattle.ix_holders.specs.Holders.{AreHolders};
ghost use Rattle.ix_lut_places.specs.Places.{ArePlaces};
ghost use Rattle.ix_table_keys.specs.Tables.{AreTableKeys};
ghost use Rattle.ix_extract.specs.Extracted.{TellsDesign};

use crate::flat::with_nets;
use crate::held::Netlist;
use crate::holding::{ends_of, holders_of};
use crate::signals::{SignalNets, signal_nets};
use ix_device::Device;
use ix_ends::Ends;
use ix_graph::NodeGraph;
use ix_holders::Holders;
use ix_legal::{Level, holders_are_one};
use ix_lut_places::LutPlaces;
use ix_num::Memory;
use ix_rec::{Flat, Phys};
use ix_strings::Names;
use ix_table_keys::TableKeys;
use std::alloc::Global;

// What is extracted from: a netlist on a device, and the level at which it keeps L7.
#[derive(Clone, Copy)]
struct Subject<'a> {
    device: &'a Device,
    phys: &'a Phys,
    names: &'a Names,
    level: Level,
}

// With the LUTs of the device and the tables of elements.
fn with_luts(
    alloc: Global,
    of: &Subject<'_>,
    ends: &Ends,
    holders: &Holders,
    places: &LutPlaces,
    keys: &TableKeys,
) -> Result<Option<Flat>, Memory>
    requires sound { IsSound of.now.names.now of.now.phys.now }
    requires named { Everywhere (legal.IsNamed of.now.names.now of.now.device.now of.now.phys.now) }
    requires unshared { Everywhere (IsUnshared of.now.level of.now.device.now of.now.phys.now) }
    requires ends { AreEnds of.now.device.now of.now.phys.now ends.now }
    requires holders { AreHolders of.now.device.now of.now.phys.now ends.now holders.now }
    requires places { ArePlaces of.now.device.now places.now }
    requires keys { AreTableKeys of.now.names.now of.now.phys.now keys.now }
    ensures { IfOk result (TellsDesign of.now.names.now of.now.device.now of.now.phys.now) }
{
    let SignalNets { nets, ranks } = signal_nets(alloc, of.phys)?;
    let on = Netlist {
        names: of.names,
        device: of.device,
        phys: of.phys,
        places,
        keys,
        ends,
        holders,
        ranks: ranks.as_slice(),
    };
    holders_are_one();
    with_nets(alloc, &on, nets)
}

// With the holders of resources.
fn with_holders(
    alloc: Global,
    of: &Subject<'_>,
    ends: &Ends,
    holders: &Holders,
) -> Result<Option<Flat>, Memory>
    requires sound { IsSound of.now.names.now of.now.phys.now }
    requires named { Everywhere (legal.IsNamed of.now.names.now of.now.device.now of.now.phys.now) }
    requires unshared { Everywhere (IsUnshared of.now.level of.now.device.now of.now.phys.now) }
    requires ends { AreEnds of.now.device.now of.now.phys.now ends.now }
    requires holders { AreHolders of.now.device.now of.now.phys.now ends.now holders.now }
    ensures { IfOk result (TellsDesign of.now.names.now of.now.device.now of.now.phys.now) }
{
    let places = LutPlaces::new(alloc, of.device)?;
    let keys = TableKeys::new(alloc, of.phys, of.names)?;
    with_luts(alloc, of, ends, holders, &places, &keys)
}

// On this graph.
fn with_graph(alloc: Global, of: &Subject<'_>, graph: &NodeGraph) -> Result<Option<Flat>, Memory>
    requires graph { graph.now ≡ graph_of of.now.device.now }
    requires sound { IsSound of.now.names.now of.now.phys.now }
    requires named { Everywhere (legal.IsNamed of.now.names.now of.now.device.now of.now.phys.now) }
    requires unshared { Everywhere (IsUnshared of.now.level of.now.device.now of.now.phys.now) }
    ensures { IfOk result (TellsDesign of.now.names.now of.now.device.now of.now.phys.now) }
{
    let ends = ends_of(alloc, of.device, graph, of.phys)?;
    let holders = holders_of(alloc, of.device, graph, of.phys, &ends, of.level)?;
    with_holders(alloc, of, &ends, &holders)
}

/// The design that a physical netlist realizes on a device: its cells are the placed ones, in their
/// order, its nets the signal nets, without drivers. A cell's pin is on the net that holds the site
/// wire of its BEL pin, by the device's pin map of the cell's type there, and an input of a LUT by
/// the pin map of its placement; a pin whose wire no net holds is on none. A LUT has the function
/// that the table of its element gives it, and a cell of a port's type is fixed to its site. None
/// exactly where a LUT has no function.
///
/// The graph is the device's, and the names are those of the device and of the netlist. The netlist
/// keeps L1, and at this level L7: what it names is there, and no resource has two holders.
///
/// It is linear in the netlist but for the maps of the design, into which each pin on a net, each
/// table and each port's site is put once. For each cell the names of its site and its BEL are
/// hashed, up to four times, and those of its BEL pins; for each LUT the key of its element's table
/// once, and the pin map of its placement is walked over twice for each input. Memory goes by
/// segments (some 16 bytes each), names, nets, cells with their pins, and the LUTs and the sites of
/// the device.
///
/// # Errors
///
/// Want of memory.
pub fn extract_on(
    alloc: Global,
    device: &Device,
    graph: &NodeGraph,
    phys: &Phys,
    names: &Names,
    level: Level,
) -> Result<Option<Flat>, Memory>
    requires graph { graph.now ≡ graph_of device.now }
    requires sound { IsSound names.now phys.now }
    requires named { Everywhere (legal.IsNamed names.now device.now phys.now) }
    requires unshared { Everywhere (IsUnshared level device.now phys.now) }
    ensures design { IfOk result (TellsDesign names.now device.now phys.now) }
    ensures range { IfOk result (λ design. IfSome design (IsInRange device.now)) }
    ensures named { DeviceNamed (length names.now) device.now
        → IfOk result (λ design. IfSome design (IsNamed (length names.now))) }
{
    let of = Subject {
        device,
        phys,
        names,
        level,
    };
    with_graph(alloc, &of, graph)
}

/// The same on a graph of its own, which it builds first, where L7 is kept at level placed. It
/// takes memory by the device's nodes and PIPs too.
///
/// # Errors
///
/// Want of memory.
pub fn extract(
    alloc: Global,
    device: &Device,
    phys: &Phys,
    names: &Names,
) -> Result<Option<Flat>, Memory>
    requires sound { IsSound names.now phys.now }
    requires named { Everywhere (legal.IsNamed names.now device.now phys.now) }
    requires unshared { Everywhere (IsUnshared Placed device.now phys.now) }
    ensures design { IfOk result (TellsDesign names.now device.now phys.now) }
    ensures range { IfOk result (λ design. IfSome design (IsInRange device.now)) }
    ensures named { DeviceNamed (length names.now) device.now
        → IfOk result (λ design. IfSome design (IsNamed (length names.now))) }
{
    let graph = NodeGraph::build(alloc, device)?;
    extract_on(alloc, device, &graph, phys, names, Level::Placed)
}
