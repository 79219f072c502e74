//! The LUT types of a device.

ghost use Rattle.std.specs.Prelude.{◌≡◌, ◌&&◌, ℕ, length, nat_le, find, option_map, IfOk};
ghost use Rattle.ix_keys.specs.Keys.{name_key};
ghost use Rattle.ix_first.specs.First.{value_at};
ghost use Rattle.ix_device.specs.Elements.{differ, is_by_parameter, counts_as_lut, lut_inputs_of};

use ix_first::{FirstByKey, number_of};
use ix_keys::Key;
use ix_num::{Memory, NameId};
use ix_rec::{DeviceRec, Items, LutCell, LutEquation};
use std::alloc::Global;

// Whether no two names are alike.
fn names_differ(alloc: Global, names: &Items<NameId>) -> Result<bool, Memory>
    ensures { IfOk result (λ yes. yes ≡ differ names.now) }
{
    let mut seen = FirstByKey::new(alloc);
    for i in 0..names.len() {
        if !seen.put(Key::of_name(names.at(i).get()), ())? {
            return Ok(false);
        }
    }
    Ok(true)
}

fn is_by_parameter(equation: LutEquation) -> bool
    ensures { result ≡ is_by_parameter equation }
{
    match equation {
        LutEquation::InitParam => true,
        LutEquation::Invalid => false,
    }
}

// Whether the cell makes its name a LUT type.
fn counts_as_lut(alloc: Global, cell: &LutCell) -> Result<bool, Memory>
    ensures { IfOk result (λ yes. yes ≡ counts_as_lut cell.now) }
{
    let inputs = cell.input_pins.len();
    if !is_by_parameter(cell.equation) || inputs < 1 || inputs > 6 {
        return Ok(false);
    }
    names_differ(alloc, &cell.input_pins)
}

/// The number of inputs of each LUT type, by name. Of several LUT cells of one name the first that
/// counts does.
pub(crate) fn lut_types(alloc: Global, rec: &DeviceRec) -> Result<FirstByKey<u32>, Memory>
    ensures { IfOk result (λ table. (cell : ℕ)
        → value_at table (name_key cell) ≡ lut_inputs_of rec.now cell) }
{
    let mut table = FirstByKey::new(alloc);
    for i in 0..rec.lut_definitions.lut_cells.len() {
        let cell = rec.lut_definitions.lut_cells.at(i);
        if counts_as_lut(alloc, cell)? {
            let inputs = number_of(cell.input_pins.len())?;
            table.put(Key::of_name(cell.cell.get()), inputs)?;
        }
    }
    Ok(table)
}
