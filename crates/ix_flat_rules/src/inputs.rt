//! N7.

ghost use Rattle.std.specs.Prelude.{◌≡◌, ◌<◌, IfErr, IfOk, List, MatchOption, OnOk, Some, ℕ};
ghost use Rattle.std.specs.Prelude.{length, slice_get};
ghost use Rattle.ix_rec.specs.declared.netlist.CellInstance.{CellInstance};
ghost use Rattle.ix_hierarchy.specs.Broken.{Keeps6, KeepsAll};
ghost use Rattle.ix_hierarchy.specs.Hierarchy.{Path};
ghost use Rattle.ix_joined.specs.Joining.{Known, IsJoined};
ghost use Rattle.ix_flat_laws.specs.Laws.{AreJoined};
ghost use Rattle.ix_asked.specs.Faults.{IsDesignFault};
ghost use Rattle.ix_flat_rules.specs.Givens.{AreInputsKnown, AreSinksKnown};
ghost use Rattle.ix_flat_rules.specs.Leaves.{IsPlainAt};
ghost use Rattle.ix_flat_rules.specs.Opens.{AreAllJoined, IsFirstOpenOf, IsInputText};
ghost use Rattle.ix_flat_rules.specs.Told.{IsToldAs};

use crate::luts::lut_at;
use ix_asked::{DesignFault, broken};
use ix_first::FirstByKey;
use ix_flat_texts::text_in;
use ix_joined::{Joined, NetState};
use ix_num::{Memory, NameId};
use ix_open_inputs::{first_open, open_inputs};
use ix_rec::{DeviceRec, NetlistRec, Rule};
use ix_strings::Names;
use std::alloc::Global;

// The name of the first open input of a leaf, which is given by its number in preorder; none
// exactly where the leaf is no LUT cell or all its inputs are on nets that have sinks.
fn first_open_of(
    alloc: Global,
    rec: &NetlistRec,
    device: &DeviceRec,
    names: &Names,
    luts: &FirstByKey<u32>,
    joined: &Joined,
    states: &[NetState],
    instance: u32,
) -> Result<Option<NameId>, Memory>
    requires leaf { (known : Known) × (path : Path) × (inst : CellInstance) × (ty : ℕ)
        × AreSinksKnown known names.now rec.now device.now luts.now joined.now states.now
        × IsPlainAt known rec.now joined.now instance path inst ty }
    ensures { (known : Known) (path : Path) (inst : CellInstance) (ty : ℕ)
        → AreSinksKnown known names.now rec.now device.now luts.now joined.now states.now
        → IsPlainAt known rec.now joined.now instance path inst ty
        → IfOk result (λ found. MatchOption found
        (AreAllJoined known.names known.device rec.now path)
        (IsFirstOpenOf known.names known.device rec.now path)) }
{
    let Some(lut) = lut_at(rec, device, luts, joined, instance) else {
        return Ok(None);
    };
    let inputs = &lut.input_pins;
    let unjoined = open_inputs(rec, &device.constants, joined, states, inputs, instance);
    let declaration = joined.instances[instance as usize].declaration;
    let ports = &rec.cell_decls.at(declaration as usize).ports;
    first_open(alloc, rec, names, ports, inputs, &unjoined)
}

// That an input of a leaf breaks N7, which is told by the leaf's flat name and its own; else
// `Memory`.
fn broken_at_input(
    alloc: Global,
    rec: &NetlistRec,
    names: &Names,
    joined: &Joined,
    instance: u32,
    name: NameId,
) -> DesignFault
    requires known { (known : Known) × IsJoined known rec.now joined.now
        × (known.names ≡ names.now) }
    requires there { instance < length joined.now.instances.items }
    requires named { name < length names.now }
    ensures { (known : Known) (path : Path) → IsJoined known rec.now joined.now
        → known.names ≡ names.now → slice_get known.paths instance ≡ Some path
        → IsToldAs Rule.N7 (IsInputText known.names rec.now path name) result }
{
    match text_in(alloc, rec, names, &joined.instances, instance, name) {
        Ok(text) => broken(alloc, Rule::N7, text.as_str()),
        Err(_) => DesignFault::Memory,
    }
}

/// Asks N7: each input of a LUT cell is a pin on a net that has a sink.
///
/// # Errors
///
/// `Broken` with the flat name of the first input that isn't; else `Memory`.
pub fn ask_inputs(
    alloc: Global,
    rec: &NetlistRec,
    device: &DeviceRec,
    names: &Names,
    luts: &FirstByKey<u32>,
    joined: &Joined,
    states: &[NetState],
    leaves: &[u32],
) -> Result<(), DesignFault>
    requires known { (known : Known) × AreInputsKnown known names.now rec.now device.now luts.now
        joined.now states.now leaves.now }
    ensures keeps { (known : Known)
        → AreInputsKnown known names.now rec.now device.now luts.now joined.now states.now
        leaves.now → Keeps6 known.names known.device rec.now
        → OnOk result (KeepsAll known.names known.device rec.now) }
    ensures joined { (known : Known)
        → AreInputsKnown known names.now rec.now device.now luts.now joined.now states.now
        leaves.now → OnOk result (AreJoined known.names known.device rec.now) }
    ensures broken { (known : Known)
        → AreInputsKnown known names.now rec.now device.now luts.now joined.now states.now
        leaves.now → Keeps6 known.names known.device rec.now
        → IfErr result (IsDesignFault known.names known.device rec.now) }
{
    for k in 0..leaves.len() {
        let instance = leaves[k];
        if let Some(name) = first_open_of(
            alloc, rec, device, names, luts, joined, states, instance,
        )? {
            return Err(broken_at_input(alloc, rec, names, joined, instance, name));
        }
    }
    Ok(())
}
