//! The LUT types of a device.

ghost use Rattle.std.specs.Prelude.{◌≡◌, ◌<◌, ◌≤◌, ℕ, length, drop, IfOk, IfSome};
ghost use Rattle.std.specs.Prelude.{option_and_then, slice_get};
ghost use Rattle.ix_hierarchy.specs.FlatDesign.{lut_of_type};
ghost use Rattle.ix_device_rules.specs.Rules.{is_new as is_new_seen};
ghost use Rattle.ix_device.specs.Elements.{differ as differ_seen, is_by_parameter};
ghost use Rattle.ix_device.specs.Elements.{counts_as_lut as counts_seen};
ghost use Rattle.ix_lut_tables.specs.Tables.{AreLutTypes, HasFewInputs};

use ix_first::{FirstByKey, number_of};
use ix_keys::Key;
use ix_num::{Memory, NameId};
use ix_rec::{DeviceRec, Items, LutCell, LutEquation};
use std::alloc::Global;

// Whether a name isn't among those from a place on.
fn is_new(names: &Items<NameId>, from: usize, name: NameId) -> bool
    requires { from ≤ length names.now }
    ensures { result ≡ is_new_seen (drop from names.now) name }
{
    for j in from..names.len() {
        if *names.at(j) == name {
            return false;
        }
    }
    true
}

// Whether no two of these names are alike: at most six are asked.
fn differ(names: &Items<NameId>) -> bool
    ensures { result ≡ differ_seen names.now }
{
    for i in 0..names.len() {
        if !is_new(names, i + 1, *names.at(i)) {
            return false;
        }
    }
    true
}

// Whether the function of a LUT cell is given by a parameter.
fn is_given(equation: LutEquation) -> bool
    ensures { result ≡ is_by_parameter equation }
{
    match equation {
        LutEquation::InitParam => true,
        LutEquation::Invalid => false,
    }
}

// Whether a LUT cell makes its name a LUT type.
fn counts_as_lut(cell: &LutCell) -> bool
    ensures { result ≡ counts_seen cell.now }
{
    let inputs = cell.input_pins.len();
    is_given(cell.equation) && inputs >= 1 && inputs <= 6 && differ(&cell.input_pins)
}

/// The LUT types of a device: the place of the first LUT cell of each name that counts as one.
pub fn lut_types(alloc: Global, device: &DeviceRec) -> Result<FirstByKey<u32>, Memory>
    ensures { IfOk result (AreLutTypes device.now) }
{
    let cells = &device.lut_definitions.lut_cells;
    let mut table = FirstByKey::new(alloc);
    for i in 0..cells.len() {
        let cell = cells.at(i);
        if counts_as_lut(cell) {
            let place = number_of(i)?;
            table.put(Key::of_name(cell.cell.get()), place)?;
        }
    }
    Ok(table)
}

/// The place of the LUT cell that makes a type a LUT type; none exactly where the type isn't one.
pub fn lut_of(device: &DeviceRec, types: &FirstByKey<u32>, ty: NameId) -> Option<u32>
    requires { AreLutTypes device.now types.now }
    ensures lut { option_and_then (slice_get device.now.lut_definitions.lut_cells) result
        ≡ lut_of_type device.now ty }
    ensures inside { IfSome result (λ p. p < length device.now.lut_definitions.lut_cells) }
    ensures sizes { IfSome (lut_of_type device.now ty) HasFewInputs }
{
    types.get(Key::of_name(ty.get()))
}
