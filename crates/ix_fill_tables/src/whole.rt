//! The netlist with tables.

ghost use Rattle.std.specs.Prelude.{◌≡◌, ◌≤◌, ◌<◌, ◌+◌, ◌-◌, ◌*◌, ◌^◌, length, IfOk};
ghost use Rattle.ix_graph.specs.Graph.{graph_of};
ghost use Rattle.ix_legal.specs.Legal.{IsSound};
ghost use Rattle.ix_phys_write.specs.Record.{IsPhysNamed};
ghost use Rattle.ix_strings.specs.Names.{KeepsNumbers};
ghost use Rattle.std.specs.FinMap as map;
ghost use Rattle.ix_fill_tables.specs.Completed.{IsCompleted};
ghost use Rattle.ix_fill_tables.specs.Filled.{HaveSites, fillings_of};
ghost use Rattle.ix_fill_tables.specs.Forced.{AreForced};
ghost use Rattle.ix_fill_tables.specs.Whole.{IsWithTables};

use crate::constants::ConstantWires;
use crate::forced::{Forced, forced_tables};
use crate::netlist::Netlist;
use crate::properties::{add_tables, has_tables};
use crate::told::ToldTables;
use ix_device::Device;
use ix_graph::NodeGraph;
use ix_lut_places::LutPlaces;
use ix_num::Memory;
use ix_rec::{Flat, Phys};
use ix_strings::Names;
use ix_table_keys::instances_by_name;
use std::alloc::Global;

// What the LUTs of a netlist force.
fn forced_of(
    alloc: Global,
    device: &Device,
    graph: &NodeGraph,
    flat: &Flat,
    phys: &Phys,
    names: &Names,
) -> Result<Forced, Memory>
    requires graph { graph.now ≡ graph_of device.now }
    requires sound { IsSound names.now phys.now }
    ensures forced { IfOk result (AreForced device.now phys.now flat.now
        (length phys.now.placements)) }
    ensures few { IfOk result (λ forced. map.len forced ≤ length phys.now.placements) }
{
    let places = LutPlaces::new(alloc, device)?;
    let instances = instances_by_name(alloc, &phys.site_insts, names.len())?;
    let constants = ConstantWires::new(alloc, device, graph, phys)?;
    let told = ToldTables::new(alloc, flat, names.len())?;
    let on = Netlist {
        device,
        flat,
        phys,
        names: names.len(),
        places: &places,
        instances: &instances,
        constants: &constants,
        told: &told,
    };
    forced_tables(alloc, &on)
}

// The netlist with the tables of elements behind its properties.
fn with_tables(
    alloc: Global,
    phys: Phys,
    names: &mut Names,
    forced: &Forced,
) -> Result<Phys, Memory>
    requires sites { HaveSites names.old phys.site_insts (map.entries forced.now) }
    requires room { length names.old + 2 * length (map.entries forced.now) < 2 ^ 32 - 1 }
    ensures filled { IfOk result (IsWithTables names.new phys
        (fillings_of (map.entries forced.now))) }
    ensures keeps { KeepsNumbers names.old names.new }
    ensures most { length names.new ≤ length names.old + 2 * length (map.entries forced.now) }
{
    let Phys {
        part,
        placements,
        nets,
        site_insts,
        mut properties,
    } = phys;
    add_tables(alloc, &site_insts, &mut properties, names, forced)?;
    Ok(Phys {
        part,
        placements,
        nets,
        site_insts,
        properties,
    })
}

/// `fill_tables`, with the device's graph at hand.
pub fn fill_tables_on(
    alloc: Global,
    device: &Device,
    graph: &NodeGraph,
    flat: &Flat,
    phys: Phys,
    names: &mut Names,
) -> Result<Phys, Memory>
    requires graph { graph.now ≡ graph_of device.now }
    requires sound { IsSound names.old phys }
    requires room { length names.old + 2 * length phys.placements < 2 ^ 32 - 1 }
    ensures completed { IfOk result (IsCompleted names.new device.now phys flat.now) }
    ensures named { IfOk result (IsPhysNamed names.new) }
    ensures few { IfOk result (λ filled. length filled.properties
        ≤ length phys.properties + length phys.placements) }
    ensures keeps { KeepsNumbers names.old names.new }
    ensures most { length names.new ≤ length names.old + 2 * length phys.placements }
{
    if has_tables(&phys, names) {
        return Ok(phys);
    }
    let forced = forced_of(alloc, device, graph, flat, &phys, names)?;
    with_tables(alloc, phys, names, &forced)
}

/// The netlist with the tables that its LUTs force, by the tables that the flat design tells:
/// behind its properties, by instance of a site and then by element. A netlist that has a property
/// whose key begins with `TABLE/` stays as it is.
///
/// A LUT forces the bits that give it its table of the design, whatever the values of inputs that
/// it doesn't use, as long as they agree with the constants that hold their wires. An element gets
/// a table where a LUT is placed in it and it is usable, but not where a bit is forced both ways.
///
/// At most two names a placement are added, each with its own number kept. `Memory` is the only
/// error; the names may have grown then.
pub fn fill_tables(
    alloc: Global,
    device: &Device,
    flat: &Flat,
    phys: Phys,
    names: &mut Names,
) -> Result<Phys, Memory>
    requires sound { IsSound names.old phys }
    requires room { length names.old + 2 * length phys.placements < 2 ^ 32 - 1 }
    ensures completed { IfOk result (IsCompleted names.new device.now phys flat.now) }
    ensures named { IfOk result (IsPhysNamed names.new) }
    ensures few { IfOk result (λ filled. length filled.properties
        ≤ length phys.properties + length phys.placements) }
    ensures keeps { KeepsNumbers names.old names.new }
    ensures most { length names.new ≤ length names.old + 2 * length phys.placements }
{
    let graph = NodeGraph::build(alloc, device)?;
    fill_tables_on(alloc, device, &graph, flat, phys, names)
}
