//! N6.

ghost use Rattle.std.specs.Prelude.{◌≡◌, ◌↔◌, ◌<◌, ℕ, List, [], length, map, slice_get, IfErr};
ghost use Rattle.std.specs.Prelude.{IsTrue, MatchOption, OnOk, Some};
ghost use Rattle.ix_message.specs.Shape.{Text};
ghost use Rattle.ix_rec.specs.declared.netlist.CellInstance.{CellInstance};
ghost use Rattle.ix_hierarchy.specs.Broken.{HasNoTable, Keeps4, Keeps6};
ghost use Rattle.ix_hierarchy.specs.Fits.{NetlistFits};
ghost use Rattle.ix_hierarchy.specs.FlatDesign.{LeafCell};
ghost use Rattle.ix_hierarchy.specs.Hierarchy.{Path, flat_name};
ghost use Rattle.ix_joined.specs.Joining.{Known, IsJoined};
ghost use Rattle.ix_flat_lists.specs.Listed.{AreLeaves};
ghost use Rattle.ix_lut_tables.specs.Tables.{AreLutTypes, table_of_instance};
ghost use Rattle.ix_asked.specs.Faults.{IsDesignFault};
ghost use Rattle.ix_flat_rules.specs.Givens.{AreTablesKnown};
ghost use Rattle.ix_flat_rules.specs.Lacking.{IsFirstLacking, IsFirstLutPort, IsLutPort};
ghost use Rattle.ix_flat_rules.specs.Lacking.{IsPortText, NoLutPort, NoneLacks};
ghost use Rattle.ix_flat_rules.specs.Leaves.{IsPlainAt};
ghost use Rattle.ix_flat_rules.specs.Told.{IsToldAs};

use crate::luts::{lut_at, lut_type};
use ix_asked::{DesignFault, broken};
use ix_first::FirstByKey;
use ix_flat_lists::PortNames;
use ix_flat_names::port_text;
use ix_flat_texts::path_text;
use ix_joined::{Joined, TopBit};
use ix_rec::{DeviceRec, NetlistRec, Rule, TruthTable};
use ix_strings::Names;
use std::alloc::Global;

// Whether the type of the port cell of a bit is a LUT type.
fn is_lut_port(device: &DeviceRec, luts: &FirstByKey<u32>, types: &PortNames, bit: &TopBit) -> bool
    requires { AreLutTypes device.now luts.now }
    ensures { IsTrue result ↔ IsLutPort device.now types.now bit.now }
{
    match types.of(bit.dir) {
        Some(ty) => lut_type(device, luts, ty).is_some(),
        None => false,
    }
}

// The place of the first port cell whose type is a LUT type.
fn first_lut_port(
    device: &DeviceRec,
    luts: &FirstByKey<u32>,
    types: &PortNames,
    bits: &[TopBit],
) -> Option<usize>
    requires { AreLutTypes device.now luts.now }
    ensures { MatchOption result (NoLutPort device.now types.now bits.now (length bits.now))
        (IsFirstLutPort device.now types.now bits.now) }
{
    for k in 0..bits.len() {
        if is_lut_port(device, luts, types, &bits[k]) {
            return Some(k);
        }
    }
    None
}

// Whether a leaf is a LUT cell without a table. It is given by its number in preorder, the tables
// by the netlist's list of instances.
fn lacks_table(
    rec: &NetlistRec,
    device: &DeviceRec,
    luts: &FirstByKey<u32>,
    joined: &Joined,
    tables: &[Option<TruthTable>],
    instance: u32,
) -> bool
    requires luts { AreLutTypes device.now luts.now }
    requires leaf { (known : Known) × (path : Path) × (inst : CellInstance) × (ty : ℕ)
        × IsPlainAt known rec.now joined.now instance path inst ty }
    requires many { length tables.now ≡ length rec.now.inst_list }
    ensures { (known : Known) (names : List Text) (path : Path) (inst : CellInstance) (ty : ℕ)
        → IsPlainAt known rec.now joined.now instance path inst ty
        → tables.now ≡ map (table_of_instance names device.now rec.now) rec.now.inst_list
        → IsTrue result ↔ HasNoTable names device.now inst ty }
{
    let number = joined.instances[instance as usize].number;
    lut_at(rec, device, luts, joined, instance).is_some() && tables[number as usize].is_none()
}

// The first leaf that is a LUT cell without a table, by its number in preorder.
fn first_without_table(
    rec: &NetlistRec,
    device: &DeviceRec,
    luts: &FirstByKey<u32>,
    joined: &Joined,
    leaves: &[u32],
    tables: &[Option<TruthTable>],
) -> Option<u32>
    requires luts { AreLutTypes device.now luts.now }
    requires leaves { (known : Known) × (cells : List LeafCell)
        × IsJoined known rec.now joined.now × AreLeaves known rec.now leaves.now cells }
    requires many { length tables.now ≡ length rec.now.inst_list }
    ensures { (known : Known) (cells : List LeafCell) → device.now ≡ known.device
        → IsJoined known rec.now joined.now → AreLeaves known rec.now leaves.now cells
        → tables.now ≡ map (table_of_instance known.names device.now rec.now) rec.now.inst_list
        → MatchOption result (NoneLacks known rec.now) (IsFirstLacking known rec.now) }
{
    for k in 0..leaves.len() {
        if lacks_table(rec, device, luts, joined, tables, leaves[k]) {
            return Some(leaves[k]);
        }
    }
    None
}

// That a port cell breaks N6, whose name is told; else `Memory`.
fn broken_at_port(alloc: Global, rec: &NetlistRec, names: &Names, bit: &TopBit) -> DesignFault
    requires fits { NetlistFits (length names.now) rec.now }
    requires there { bit.now.port < length rec.now.port_list }
    ensures { IsToldAs Rule.N6 (IsPortText names.now rec.now bit.now) result }
{
    match port_text(alloc, rec, names, bit) {
        Ok(text) => broken(alloc, Rule::N6, text.as_str()),
        Err(_) => DesignFault::Memory,
    }
}

// That a leaf breaks N6, whose flat name is told; else `Memory`.
fn broken_at_leaf(
    alloc: Global,
    rec: &NetlistRec,
    names: &Names,
    joined: &Joined,
    instance: u32,
) -> DesignFault
    requires known { (known : Known) × IsJoined known rec.now joined.now
        × (known.names ≡ names.now) }
    requires there { instance < length joined.now.instances.items }
    ensures { (known : Known) (path : Path) → IsJoined known rec.now joined.now
        → known.names ≡ names.now → slice_get known.paths instance ≡ Some path
        → IsToldAs Rule.N6 (λ word. word ≡ flat_name known.names rec.now path []) result }
{
    match path_text(alloc, rec, names, &joined.instances, instance) {
        Ok(text) => broken(alloc, Rule::N6, text.as_str()),
        Err(_) => DesignFault::Memory,
    }
}

/// Asks N6: each LUT cell has a truth table, and no port cell is one.
///
/// # Errors
///
/// `Broken` with the name of the first that hasn't, the port cells before the leaves; else
/// `Memory`.
pub fn ask_tables(
    alloc: Global,
    rec: &NetlistRec,
    device: &DeviceRec,
    names: &Names,
    types: &PortNames,
    luts: &FirstByKey<u32>,
    joined: &Joined,
    bits: &[TopBit],
    leaves: &[u32],
    tables: &[Option<TruthTable>],
) -> Result<(), DesignFault>
    requires known { (known : Known) × AreTablesKnown known names.now rec.now device.now types.now
        luts.now joined.now bits.now leaves.now tables.now }
    ensures keeps { (known : Known)
        → AreTablesKnown known names.now rec.now device.now types.now luts.now joined.now bits.now
        leaves.now tables.now → Keeps4 known.names known.device rec.now
        → OnOk result (Keeps6 known.names known.device rec.now) }
    ensures broken { (known : Known)
        → AreTablesKnown known names.now rec.now device.now types.now luts.now joined.now bits.now
        leaves.now tables.now → Keeps4 known.names known.device rec.now
        → IfErr result (IsDesignFault known.names known.device rec.now) }
{
    if let Some(place) = first_lut_port(device, luts, types, bits) {
        return Err(broken_at_port(alloc, rec, names, &bits[place]));
    }
    match first_without_table(rec, device, luts, joined, leaves, tables) {
        Some(instance) => Err(broken_at_leaf(alloc, rec, names, joined, instance)),
        None => Ok(()),
    }
}
