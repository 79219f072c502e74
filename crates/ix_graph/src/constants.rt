//! The constants of nodes.

ghost use Rattle.std.specs.Prelude.{◌≡◌, ◌<◌, ◌&&◌, ℕ, false, length, map, nat_eq, IfOk};
ghost use Rattle.std.specs.List.{AllByRecursion, list_any, range_with_len};
ghost use Rattle.ix_num.specs.declared.resource.Constant.{Constant as ConstantSeen};
ghost use Rattle.ix_device.specs.Sources.{is_constant, node_sources_of};
ghost use Rattle.ix_graph.specs.Nodes.{AreBelow, nodes, nodes_from, tile_wires};
ghost use Rattle.ix_graph.specs.Constants.{carries, constant_of_node, only_constant};
ghost use Rattle.ix_graph.specs.Marks.{Adds, is_marked, entry_marks, type_marks, listed_in};
ghost use Rattle.ix_graph.specs.Marks.{source_marks};

use ix_device::Device;
use ix_num::{Constant, Memory, NodeId};
use ix_rec::{ConstantPreference, Items, NodeConstantSource, TileType, WireConstantSources};
use std::alloc::Global;

/// Which constants a node carries.
#[derive(Clone, Copy)]
pub(crate) struct Carried {
    /// Logic 0.
    pub gnd: bool,
    /// Logic 1.
    pub vcc: bool,
}

// Marks a node with a constant, if it is one.
fn mark(marks: &mut [Carried], node: NodeId, constant: ConstantPreference)
    requires { node < length marks.now }
    ensures { Adds (λ c n. is_constant c constant && nat_eq n node) marks.old marks.new }
{
    let node = node.get() as usize;
    match constant {
        ConstantPreference::NoPreference => {}
        ConstantPreference::Gnd => marks[node].gnd = true,
        ConstantPreference::Vcc => marks[node].vcc = true,
    }
}

// Marks the nodes of the wires of an entry of a tile's type. The nodes are those of the tile's
// wires.
fn mark_entry(marks: &mut [Carried], nodes: &Items<NodeId>, entry: &WireConstantSources)
    requires nodes { AreBelow (length marks.now) nodes.now }
    requires wires { AllByRecursion (λ w. w < length nodes.now) entry.now.wires }
    ensures { Adds (λ c n. entry_marks c nodes.now n entry.now) marks.old marks.new }
{
    for i in 0..entry.wires.len() {
        let wire = *entry.wires.at(i) as usize;
        mark(marks, *nodes.at(wire), entry.constant);
    }
}

// Marks the nodes of the wires that a tile's type lists.
fn mark_tile(marks: &mut [Carried], nodes: &Items<NodeId>, ty: &TileType)
    requires nodes { AreBelow (length marks.now) nodes.now }
    requires wires { AllByRecursion (λ e. AllByRecursion (λ w. w < length nodes.now) e.wires)
        ty.now.constants }
    ensures { Adds (λ c n. type_marks c nodes.now n ty.now) marks.old marks.new }
{
    for i in 0..ty.constants.len() {
        mark_entry(marks, nodes, ty.constants.at(i));
    }
}

// Marks the nodes of the wires that tile types list, in all tiles.
fn mark_tiles(marks: &mut [Carried], device: &Device, wires: &Items<Items<NodeId>>)
    requires wires { wires.now ≡ nodes_from device.now 0 device.now.tile_list }
    requires below { AllByRecursion (AreBelow (length marks.now)) wires.now }
    ensures { Adds (λ c n. list_any (listed_in device.now c n) (tile_wires device.now)) marks.old
        marks.new }
{
    let rec = device.rec();
    for i in 0..rec.tile_list.len() {
        let ty = rec.tile_type_list.at(rec.tile_list.at(i).ty as usize);
        mark_tile(marks, wires.at(i), ty);
    }
}

// Marks the node of the tile wire that a source names, where there is one.
fn mark_source(
    marks: &mut [Carried],
    device: &Device,
    wires: &Items<Items<NodeId>>,
    source: &NodeConstantSource,
)
    requires wires { wires.now ≡ nodes_from device.now 0 device.now.tile_list }
    requires below { AllByRecursion (AreBelow (length marks.now)) wires.now }
    ensures { Adds (λ c n. source_marks device.now c n source.now) marks.old marks.new }
{
    if let Some((tile, wire)) = device.tile_wire(source.tile, source.wire) {
        let node = *wires.at(tile.get() as usize).at(wire as usize);
        mark(marks, node, source.constant);
    }
}

// Marks the nodes of the tile wires that node sources name.
fn mark_sources(
    marks: &mut [Carried],
    device: &Device,
    wires: &Items<Items<NodeId>>,
    sources: &Items<NodeConstantSource>,
)
    requires wires { wires.now ≡ nodes_from device.now 0 device.now.tile_list }
    requires below { AllByRecursion (AreBelow (length marks.now)) wires.now }
    ensures { Adds (λ c n. list_any (source_marks device.now c n) sources.now) marks.old marks.new }
{
    for i in 0..sources.len() {
        mark_source(marks, device, wires, sources.at(i));
    }
}

// Marks the nodes of the tile wires that the device's node sources name.
fn mark_named(marks: &mut [Carried], device: &Device, wires: &Items<Items<NodeId>>)
    requires wires { wires.now ≡ nodes_from device.now 0 device.now.tile_list }
    requires below { AllByRecursion (AreBelow (length marks.now)) wires.now }
    ensures { Adds (λ c n. list_any (source_marks device.now c n) (node_sources_of device.now))
        marks.old marks.new }
{
    if let Some(constants) = &device.rec().constants {
        mark_sources(marks, device, wires, &constants.node_sources);
    }
}

// Marks the nodes with the constants that they carry.
fn mark_all(marks: &mut [Carried], device: &Device, wires: &Items<Items<NodeId>>)
    requires wires { wires.now ≡ nodes_from device.now 0 device.now.tile_list }
    requires below { AllByRecursion (AreBelow (length marks.now)) wires.now }
    ensures { Adds (carries device.now) marks.old marks.new }
{
    mark_tiles(marks, device, wires);
    mark_named(marks, device, wires);
}

// Marks for so many nodes, none of which carries a constant yet.
fn no_marks(alloc: Global, count: usize) -> Result<Vec<Carried>, Memory>
    ensures count { IfOk result (λ marks. length marks.items ≡ count) }
    ensures none { IfOk result (λ marks. (c : ConstantSeen) (n : ℕ)
        → is_marked c marks.items n ≡ false) }
{
    let mut marks = Vec::new(alloc);
    marks.resize(
        count,
        Carried {
            gnd: false,
            vcc: false,
        },
    )?;
    Ok(marks)
}

// What carries both constants is of neither.
fn only_constant(carried: Carried) -> Option<Constant>
    ensures { result ≡ only_constant carried.gnd carried.vcc }
{
    match (carried.gnd, carried.vcc) {
        (true, false) => Some(Constant::Gnd),
        (false, true) => Some(Constant::Vcc),
        _ => None,
    }
}

// The constant of each node, by its marks.
fn only_constants(alloc: Global, marks: &[Carried]) -> Result<Items<Option<Constant>>, Memory>
    ensures { IfOk result (λ constants. constants
        ≡ map (λ m. only_constant m.gnd m.vcc) marks.now) }
{
    let mut constants = Items::with_capacity(alloc, marks.len())?;
    for i in 0..marks.len() {
        constants.push(only_constant(marks[i]))?;
    }
    Ok(constants)
}

/// The constant of each node, of which there are `count`; none where a node carries none or both.
/// `Memory` is the only error.
pub(crate) fn constants_of(
    alloc: Global,
    device: &Device,
    wires: &Items<Items<NodeId>>,
    count: usize,
) -> Result<Items<Option<Constant>>, Memory>
    requires wires { wires.now ≡ nodes_from device.now 0 device.now.tile_list }
    requires below { AllByRecursion (AreBelow count) wires.now }
    requires count { count ≡ length (nodes device.now) }
    ensures { IfOk result (λ constants. constants
        ≡ map (constant_of_node device.now) (range_with_len 0 count)) }
{
    let mut marks = no_marks(alloc, count)?;
    mark_all(&mut marks, device, wires);
    only_constants(alloc, &marks)
}
