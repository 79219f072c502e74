//! First fit as a whole.

ghost use Rattle.std.specs.Prelude.{List, length, IfOk, IfErr};
ghost use Rattle.std.specs.List.{AllByRecursion};
ghost use Rattle.ix_message.specs.Shape.{Text};
ghost use Rattle.ix_device_read.specs.Named.{DeviceNamed};
ghost use Rattle.ix_phys_write.specs.Record.{IsPhysNamed};
ghost use Rattle.ix_first_fit.specs.Named.{CellNamed};
ghost use Rattle.ix_first_fit.specs.Answers.{IsFitted, IsFitFault};

use crate::counts::check_counts;
use crate::fault::FitFault;
use crate::fit::fit;
use crate::netlist::netlist;
use ix_device::Device;
use ix_rec::{FlatCell, Items, Phys};
use std::alloc::Global;

/// The physical netlist of cells that have no nets: each cell, in order, is on the first BEL, by
/// site and by BEL number, that is free and admits its type.
///
/// # Errors
///
/// `TooFewBels` exactly where a type has more cells than the BELs that admit it, for the first such
/// type by first cell; `NoSite` exactly where no type has, and first fit stops at this cell;
/// `Memory`.
pub fn first_fit(alloc: Global, device: &Device, cells: &Items<FlatCell>) -> Result<Phys, FitFault>
    ensures fitted { IfOk result (IsFitted device.now cells.now) }
    ensures err { IfErr result (IsFitFault device.now cells.now) }
    ensures named { (names : List Text) → DeviceNamed (length names) device.now
        → AllByRecursion (CellNamed (length names)) cells.now → IfOk result (IsPhysNamed names) }
{
    match check_counts(alloc, device, cells) {
        Err(fault) => Err(fault),
        Ok(()) => match fit(alloc, device, cells) {
            Err(fault) => Err(fault),
            Ok(places) => match netlist(alloc, device, cells, &places.into_spots()) {
                Err(_) => Err(FitFault::Memory),
                Ok(phys) => Ok(phys),
            },
        },
    }
}
