//! The rules that are asked of a design in lists: N8, N5, N3, N4, N6 and N7.

ghost use Rattle.std.specs.Prelude.{◌≡◌, length, IfErr, IfOk, OnOk};
ghost use Rattle.ix_hierarchy.specs.Broken.{Keeps8, Keeps5};
ghost use Rattle.ix_hierarchy.specs.Fits.{AreInputsNamed};
ghost use Rattle.ix_asked.specs.Faults.{IsDesignFault};
ghost use Rattle.ix_flatten.specs.Stages.{AreListed, IsJudged};

use crate::listing::Listed;
use ix_asked::{DesignFault, broken};
use ix_flat_rules::{ask_driver, ask_inout, ask_inputs, ask_one_driver, ask_tables};
use ix_lut_tables::{lut_types, tables};
use ix_named_twice::first_named_twice;
use ix_rec::{DeviceRec, NetlistRec, Rule, TruthTable};
use ix_strings::Names;
use std::alloc::Global;

// N5.
fn ask_names(
    alloc: Global,
    rec: &NetlistRec,
    device: &DeviceRec,
    names: &Names,
    listed: &Listed,
) -> Result<(), DesignFault>
    requires listed { AreListed names.now device.now rec.now listed.now }
    requires keeps { Keeps8 names.now device.now rec.now }
    ensures keeps { OnOk result (Keeps5 names.now device.now rec.now) }
    ensures broken { IfErr result (IsDesignFault names.now device.now rec.now) }
{
    match first_named_twice(alloc, &listed.joined, &listed.named, names.len())? {
        Some(name) => Err(broken(alloc, Rule::N5, names.name(name))),
        None => Ok(()),
    }
}

/// The truth tables of the instances of a design that keeps all rules.
///
/// # Errors
///
/// `Broken` with the first of N8, N5, N3, N4, N6 and N7 that is broken and the name that is told;
/// else `Memory`.
pub(crate) fn judge(
    alloc: Global,
    rec: &NetlistRec,
    device: &DeviceRec,
    names: &Names,
    listed: &Listed,
) -> Result<Vec<Option<TruthTable>>, DesignFault>
    requires listed { AreListed names.now device.now rec.now listed.now }
    requires inputs { AreInputsNamed (length names.now) device.now }
    ensures judged { IfOk result (λ tables. IsJudged names.now device.now rec.now tables.items) }
    ensures broken { IfErr result (IsDesignFault names.now device.now rec.now) }
{
    let joined = &listed.joined;
    let bits = &listed.bits;
    let states = &listed.states;
    let leaves = &listed.named.leaves;
    ask_inout(alloc, rec, &device.constants, names, joined, bits)?;
    ask_names(alloc, rec, device, names, listed)?;
    ask_one_driver(alloc, rec, names, joined, states)?;
    ask_driver(alloc, rec, names, joined, states)?;
    let luts = lut_types(alloc, device)?;
    let tables = tables(alloc, rec, device, &luts, names)?;
    ask_tables(
        alloc,
        rec,
        device,
        names,
        &listed.types,
        &luts,
        joined,
        bits,
        leaves,
        &tables,
    )?;
    ask_inputs(alloc, rec, device, names, &luts, joined, states, leaves)?;
    Ok(tables)
}
