//! The rule that trees begin at proper roots (L5).

ghost use Rattle.std.specs.Prelude.{◌≡◌, ◌⊎◌, ◌<◌, ◌^◌, ◌↔◌, length, Some, Option, IfOk, IsTrue};
ghost use Rattle.ix_rec.specs.declared.device.Direction.TheVariants.{Output};
ghost use Rattle.ix_rec.specs.declared.phys.BranchKind.TheVariants.{BelPin};
ghost use Rattle.ix_graph.specs.Graph.{graph_of};
ghost use Rattle.ix_legal.specs.Legal.{IsSmall};
ghost use Rattle.ix_legal.specs.Segments.{segments};
ghost use Rattle.ix_legal.specs.Spots.{Tells};
ghost use Rattle.ix_legal.specs.Trees.{HasSource, IsDriver, IsFromConstant, IsRooted, IsSiteSource};
ghost use Rattle.ix_legal.specs.Trees.{IsSource, RootFits};
ghost use Rattle.ix_ends.specs.Ends.{AreEnds, IsRow, HasNumbers};
ghost use Rattle.ix_uses.specs.Uses.{AreUses};
ghost use Rattle.ix_net_trees.specs.Known.{AreKnown};
ghost use Rattle.ix_net_trees.specs.Told.{AreNumbers, TellsOfNet};

use crate::branches::branch_at;
use crate::constants::{is_constant, is_node_of};
use crate::known::Known;
use crate::mapped::mapped_pins;
use crate::pins::{direction_of, is_in_element, source_of};
use ix_device::Device;
use ix_ends::{Ends, Pair, graph_has_constants, graph_has_nodes};
use ix_graph::NodeGraph;
use ix_keys::Key;
use ix_legal::Spot;
use ix_num::{Constant, Memory};
use ix_rec::{BranchKind, Direction, NetType, Phys, PhysNet, Segment};
use ix_uses::Uses;
use std::alloc::Global;

// Whether a segment is a BEL pin.
fn is_bel_pin(segment: &Segment) -> bool
    ensures { IsTrue result ↔ (segment.now.kind ≡ BelPin) }
{
    matches!(segment.kind, BranchKind::BelPin)
}

// Whether a direction that may be there is that of an output.
fn is_output(direction: Option<Direction>) -> bool
    ensures { IsTrue result ↔ (direction ≡ Some Output) }
{
    matches!(direction, Some(Direction::Output))
}

// Whether a source root of a signal net drives it.
fn is_driver(known: &Known<'_>, k: usize, segment: &Segment) -> bool
    requires { AreKnown known.now }
    ensures { IsTrue result ↔ IsDriver known.now.device.now known.now.phys.now k segment.now }
{
    let (site, bel, pin) = (segment.first, segment.second, segment.third);
    k == 0
        && is_bel_pin(segment)
        && is_output(direction_of(known.device, site, bel, pin))
        && known.mapped.has(Key::new(site.get(), bel.get(), pin.get()))
}

// Whether a segment is a site source of this constant.
fn is_site_source(known: &Known<'_>, constant: Constant, segment: &Segment) -> bool
    requires { AreKnown known.now }
    ensures { IsTrue result
        ↔ IsSiteSource known.now.device.now known.now.phys.now constant segment.now }
{
    let (site, bel, pin) = (segment.first, segment.second, segment.third);
    is_bel_pin(segment)
        && is_constant(source_of(known.device, site, bel, pin), constant)
        && !known.uses.has_cell(site, bel)
        && !is_in_element(known.device, site, bel)
}

// Whether a segment is a source of this constant.
fn is_constant_source(known: &Known<'_>, constant: Constant, segment: &Segment, pair: Pair) -> bool
    requires known { AreKnown known.now }
    requires numbers { HasNumbers known.now.device.now known.now.ends.now segment.now pair }
    ensures { IsTrue result
        ↔ (IsSiteSource known.now.device.now known.now.phys.now constant segment.now
        ⊎ IsFromConstant known.now.device.now constant segment.now) }
{
    graph_has_nodes();
    graph_has_constants();
    is_site_source(known, constant, segment)
        || is_node_of(known.graph, known.ends, pair.from, constant)
}

// Whether a source root of a net of this type is proper.
fn is_source(known: &Known<'_>, ty: NetType, k: usize, segment: &Segment, pair: Pair) -> bool
    requires known { AreKnown known.now }
    requires numbers { HasNumbers known.now.device.now known.now.ends.now segment.now pair }
    ensures { IsTrue result ↔ IsSource ty known.now.device.now known.now.phys.now k segment.now }
{
    match ty {
        NetType::Signal => is_driver(known, k, segment),
        NetType::Gnd => is_constant_source(known, Constant::Gnd, segment, pair),
        NetType::Vcc => is_constant_source(known, Constant::Vcc, segment, pair),
    }
}

// Whether a segment is a proper root, if it is one.
fn root_fits(known: &Known<'_>, net: &PhysNet, k: usize, pair: Pair) -> bool
    requires there { k < length (segments net.now) }
    requires known { AreKnown known.now }
    requires numbers { AreNumbers known.now.device.now known.now.ends.now net.now k pair }
    ensures { IsTrue result ↔ RootFits known.now.device.now known.now.phys.now net.now k }
{
    let branch = branch_at(net, k);
    if branch.depth > 0 {
        true
    } else if k < net.sources.len() {
        is_source(known, net.ty, k, &branch.item, pair)
    } else {
        known.ends.node(pair.from).is_some()
    }
}

// Whether a net has a source root, if it is a signal's.
fn has_source(net: &PhysNet) -> bool
    ensures { IsTrue result ↔ HasSource net.now.ty net.now }
{
    let sources = net.sources.len();
    match net.ty {
        NetType::Signal => sources > 0,
        _ => true,
    }
}

// The first root of a net that isn't proper.
fn first_unrooted_in(known: &Known<'_>, net: &PhysNet, row: &[Pair]) -> Option<u32>
    requires few { length row.now < 2 ^ 32 }
    requires known { AreKnown known.now }
    requires row { IsRow known.now.device.now known.now.ends.now net.now row.now }
    ensures { TellsOfNet (RootFits known.now.device.now known.now.phys.now net.now) result }
{
    for k in 0..row.len() {
        if !root_fits(known, net, k, row[k]) {
            return Some(k as u32);
        }
    }
    None
}

// The first net without a source root, or root that isn't proper.
fn first_of_nets(known: &Known<'_>) -> Option<Spot>
    requires small { IsSmall known.now.phys.now }
    requires known { AreKnown known.now }
    ensures { Tells (IsRooted known.now.device.now known.now.phys.now) result }
{
    let nets = &known.phys.nets;
    for n in 0..nets.len() {
        let number = n as u32;
        let net = nets.at(n);
        if !has_source(net) {
            return Some(Spot::NetAt(number));
        }
        if let Some(k) = first_unrooted_in(known, net, known.ends.row(number)) {
            return Some(Spot::SegmentAt(number, k));
        }
    }
    None
}

/// The first place that breaks L5: a signal net without a source root, or a root that isn't proper.
/// Of a signal net its first segment alone is, where it is an output BEL pin that a cell's pin map
/// names; of a constant's net a site source of the constant, on a BEL without a cell and in no LUT
/// element, or a segment from a node of the constant; of stubs a segment from a node. The graph is
/// the device's, the ends are those of the netlist on it, and the uses are the netlist's. It takes
/// time by the segments and the entries of pin maps, and memory for a table of those entries.
///
/// # Errors
///
/// `Memory`.
pub fn first_unrooted(
    alloc: Global,
    device: &Device,
    graph: &NodeGraph,
    phys: &Phys,
    ends: &Ends,
    uses: &Uses,
) -> Result<Option<Spot>, Memory>
    requires graph { graph.now ≡ graph_of device.now }
    requires small { IsSmall phys.now }
    requires ends { AreEnds device.now phys.now ends.now }
    requires uses { AreUses phys.now uses.now }
    ensures told { IfOk result (Tells (IsRooted device.now phys.now)) }
{
    let mapped = mapped_pins(alloc, phys)?;
    let known = Known {
        device,
        graph,
        phys,
        ends,
        uses,
        mapped: &mapped,
    };
    Ok(first_of_nets(&known))
}
