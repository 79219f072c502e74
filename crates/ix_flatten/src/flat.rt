//! Flattening.

ghost use Rattle.std.specs.Prelude.{◌+◌, ◌-◌, ◌^◌, ◌<◌, ◌≤◌, length, IfErr, IfOk};
ghost use Rattle.ix_strings.specs.Names.{KeepsNumbers};
ghost use Rattle.ix_flat.specs.Range.{IsInRange, IsNamed};
ghost use Rattle.ix_flat.specs.Whole.{IsWhole};
ghost use Rattle.ix_hierarchy.specs.Broken.{IsFlattened};
ghost use Rattle.ix_hierarchy.specs.Fits.{AreInputsNamed, NetlistFits};
ghost use Rattle.ix_asked.specs.Faults.{IsDesignFault};

use crate::building::build;
use crate::judging::judge;
use crate::listing::list;
use ix_asked::DesignFault;
use ix_device::Device;
use ix_flat_laws::flat_designs_are_whole;
use ix_hierarchy::MOST_NAMES;
use ix_pin_laws::{designs_are_small, pins_are_apart};
use ix_rec::{Flat, NetlistRec};
use ix_strings::Names;
use std::alloc::Global;

/// The flat design of a netlist on a device. Its names, also those of pins, become names. It has no
/// fixed cells yet.
///
/// # Errors
///
/// `Broken` exactly where one of the rules N1 to N10 is broken: the first in the order N1, N2, N9,
/// N10, N8, N5, N3, N4, N6, N7, and the name at the first place of the walk; `Memory`. Names that
/// were added stay.
pub fn flatten(
    alloc: Global,
    rec: &NetlistRec,
    device: &Device,
    names: &mut Names,
) -> Result<Flat, DesignFault>
    requires fits { NetlistFits (length names.old) rec.now }
    requires inputs { AreInputsNamed (length names.old) device.now }
    requires few { length names.old + 2 ^ 29 < 2 ^ 32 - 1 }

    ensures flat { IfOk result (IsFlattened names.new device.now rec.now) }
    ensures range { IfOk result (IsInRange device.now) }
    ensures named { IfOk result (IsNamed (length names.new)) }
    ensures whole { IfOk result (IsWhole names.new device.now) }
    ensures most_cells { IfOk result (λ flat. length flat.cells ≤ 2 ^ 22) }
    ensures broken { IfErr result (IsDesignFault names.new device.now rec.now) }

    ensures keeps { KeepsNumbers names.old names.new }
    ensures most_names { length names.new ≤ length names.old + 2 ^ 29 }
{
    // What is listed and judged is in range, named and whole.
    flat_designs_are_whole();
    pins_are_apart();
    designs_are_small();
    let mut left = MOST_NAMES;
    let device = device.rec();
    let listed = list(alloc, rec, device, names, &mut left)?;
    let tables = judge(alloc, rec, device, names, &listed)?;
    // That no two names are alike is what the table tells with their number.
    let _count = names.len();
    Ok(build(alloc, rec, device, listed, &tables)?)
}
