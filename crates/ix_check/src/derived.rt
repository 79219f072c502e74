//! Whether tables are derived.

ghost use Rattle.std.specs.Bool.{Decides};
ghost use Rattle.ix_phys_write.specs.Record.{IsPhysNamed};
ghost use Rattle.ix_check.specs.Checked.{HasLutCell, IsDerived};

use ix_device::Device;
use ix_fill_tables::has_tables;
use ix_rec::Phys;
use ix_strings::Names;

// Whether a cell of a LUT type is placed.
fn has_lut_cell(device: &Device, phys: &Phys) -> bool
    ensures { Decides result (HasLutCell device.now phys.now) }
{
    for k in 0..phys.placements.len() {
        if device.lut_inputs(phys.placements.at(k).ty).is_some() {
            return true;
        }
    }
    false
}

/// Whether the tables of a netlist are derived when it is completed: it has a LUT, and no table.
pub(crate) fn is_derived(device: &Device, phys: &Phys, names: &Names) -> bool
    requires named { IsPhysNamed names.now phys.now }
    ensures { IsDerived names.now device.now phys.now result }
{
    has_lut_cell(device, phys) && !has_tables(phys, names)
}
