//! The rule that the trees of a net don't meet (L6).

ghost use Rattle.std.specs.Prelude.{◌≡◌, ◌≢◌, ◌<◌, ◌+◌, ◌↔◌, length, slice_index, slice_set};
ghost use Rattle.std.specs.Prelude.{None, IfOk, IsTrue, if◌then◌else◌, Option};
ghost use Rattle.ix_num.specs.declared.resource.Res.{Res};
ghost use Rattle.ix_graph.specs.Graph.{graph_of};
ghost use Rattle.ix_legal.specs.Holders.{constant_of_net};
ghost use Rattle.ix_legal.specs.Legal.{IsSmall};
ghost use Rattle.ix_legal.specs.Segments.{segments, entered_by};
ghost use Rattle.ix_legal.specs.Spots.{Tells};
ghost use Rattle.ix_legal.specs.Trees.{EntersAlone, IsApart};
ghost use Rattle.ix_legal.specs.declared.spot.Spot.TheVariants.{SegmentAt};
ghost use Rattle.ix_ends.specs.Ends.{AreEnds};
ghost use Rattle.ix_net_trees.specs.Constants.{IsOfConstant};
ghost use Rattle.ix_net_trees.specs.Met.{IsMet, IsUnmet};
ghost use Rattle.ix_net_trees.specs.Told.{AreNumbers, TellsOfNet};
ghost use Rattle.ix_net_trees.specs.Wired.{AreWired};

use crate::branches::{branch_at, is_source_root};
use crate::constants::is_of_constant;
use crate::marks::Marks;
use crate::wiring::Wiring;
use ix_device::Device;
use ix_ends::{Ends, Pair, graph_has_constants, graph_has_nodes};
use ix_graph::NodeGraph;
use ix_legal::Spot;
use ix_num::Memory;
use ix_rec::{BranchKind, NetType, Phys, PhysNet};
use std::alloc::Global;

// Which resources the net that is looked at has met: those that its segments enter, and those at
// which its source trees begin. Each has the mark of the last net that met it so.
#[derive(Drop)]
struct Met {
    entered: Marks,
    begun: Marks,
}

// Nothing is met yet.
fn nothing_met(alloc: Global, count: u32) -> Result<Met, Memory>
    ensures { IfOk result (IsUnmet count 0) }
{
    Ok(Met {
        entered: Marks::new(alloc, count)?,
        begun: Marks::new(alloc, count)?,
    })
}

// Whether a segment of this kind enters the resource that it ends at.
fn enters(kind: BranchKind) -> bool
    ensures { (r : Option Res) → entered_by kind r ≡ (if result then r else None) }
{
    match kind {
        BranchKind::BelPin => false,
        _ => true,
    }
}

// Whether a segment enters a resource that is a node of the constant of its net, which is of this
// type.
fn enters_constant(graph: &NodeGraph, ends: &Ends, ty: NetType, enters: bool, number: u32) -> bool
    requires { ends.now.nodes ≡ length graph.now.firsts }
    ensures { IsTrue result ↔ (IsTrue enters
        × IsOfConstant graph.now ends.now number (constant_of_net ty)) }
{
    enters && is_of_constant(graph, ends, number, ty)
}

impl Met {
    // Begins a tree at a resource, if the segment is a source root; whether no segment before it
    // has entered the resource.
    fn begin(&mut self, is_root: bool, number: u32, mark: u32) -> bool
        requires entered { number < length self.old.entered }
        requires begun { number < length self.old.begun }
        ensures alone { IsTrue result ↔ (IsTrue is_root
            → slice_index self.old.entered number ≢ mark) }
        ensures entered { self.new.entered ≡ self.old.entered }
        ensures begun { self.new.begun
            ≡ (if is_root then slice_set self.old.begun number mark else self.old.begun) }
    {
        if is_root {
            self.begun.set(number, mark);
        }
        !is_root || !self.entered.has(number, mark)
    }

    // Enters a resource, if the segment does; whether no segment has entered it before, and no
    // source tree begins there.
    fn enter(&mut self, enters: bool, number: u32, mark: u32) -> bool
        requires entered { number < length self.old.entered }
        requires begun { number < length self.old.begun }
        ensures alone { IsTrue result ↔ (IsTrue enters
            → (slice_index self.old.entered number ≢ mark)
            × (slice_index self.old.begun number ≢ mark)) }
        ensures entered { self.new.entered
            ≡ (if enters then slice_set self.old.entered number mark else self.old.entered) }
        ensures begun { self.new.begun ≡ self.old.begun }
    {
        let met = self.entered.has(number, mark) || self.begun.has(number, mark);
        if enters {
            self.entered.set(number, mark);
        }
        !enters || !met
    }
}

// Whether a segment keeps L6, of a net that has met what its segments before it do; then the net
// has met what this one does.
fn is_apart(
    wiring: &Wiring<'_>,
    graph: &NodeGraph,
    net: &PhysNet,
    k: usize,
    pair: Pair,
    mark: u32,
    met: &mut Met,
) -> bool
    requires graph { graph.now ≡ graph_of wiring.now.device.now }
    requires ends { AreEnds wiring.now.device.now wiring.now.phys.now wiring.now.ends.now }
    requires there { k < length (segments net.now) }
    requires numbers { AreNumbers wiring.now.device.now wiring.now.ends.now net.now k pair }
    requires met { IsMet wiring.now.device.now wiring.now.ends.now net.now mark k met.old }
    ensures apart { IsTrue result ↔ EntersAlone wiring.now.device.now net.now k }
    ensures met { IsMet wiring.now.device.now wiring.now.ends.now net.now mark (k + 1) met.new }
{
    graph_has_nodes();
    graph_has_constants();
    let is_root = is_source_root(net, k);
    let enters = enters(branch_at(net, k).item.kind);
    let begins = met.begin(is_root, pair.from, mark);
    let goes_on = met.enter(enters, pair.to, mark);
    let of_constant = enters_constant(graph, wiring.ends, net.ty, enters, pair.to);
    begins & goes_on & !of_constant
}

// The first segment of a net that doesn't keep L6. The net's mark is its number plus 1, so what
// other nets met needn't be cleared.
fn first_rejoining_in(wiring: &Wiring<'_>, graph: &NodeGraph, n: u32, met: &mut Met) -> Option<u32>
    requires wired { AreWired wiring.now }
    requires graph { graph.now ≡ graph_of wiring.now.device.now }
    requires there { n < length wiring.now.phys.now.nets }
    requires unmet { IsUnmet wiring.now.ends.now.count n met.old }
    ensures told { TellsOfNet (λ k.
        IsApart wiring.now.device.now wiring.now.phys.now (SegmentAt n k)) result }
    ensures unmet { IsUnmet wiring.now.ends.now.count (n + 1) met.new }
{
    let net = wiring.phys.nets.at(n as usize);
    let row = wiring.ends.row(n);
    for k in 0..row.len() {
        if !is_apart(wiring, graph, net, k, row[k], n + 1, met) {
            return Some(k as u32);
        }
    }
    None
}

/// The first segment that breaks L6: that enters a resource which the net enters before, at which a
/// source tree of the net begins, or which is a node of the net's constant; or that is a source
/// root at a resource which the net enters before. The graph is the device's, and the ends are
/// those of the netlist on it. It takes time by the segments, and 8 bytes a resource that has a
/// number.
///
/// # Errors
///
/// `Memory`.
pub fn first_rejoining(
    alloc: Global,
    device: &Device,
    graph: &NodeGraph,
    phys: &Phys,
    ends: &Ends,
) -> Result<Option<Spot>, Memory>
    requires graph { graph.now ≡ graph_of device.now }
    requires small { IsSmall phys.now }
    requires ends { AreEnds device.now phys.now ends.now }
    ensures told { IfOk result (Tells (IsApart device.now phys.now)) }
{
    let wiring = Wiring { device, phys, ends };
    let mut met = nothing_met(alloc, ends.count())?;
    for n in 0..phys.nets.len() {
        let number = n as u32;
        if let Some(k) = first_rejoining_in(&wiring, graph, number, &mut met) {
            return Ok(Some(Spot::SegmentAt(number, k)));
        }
    }
    Ok(None)
}
