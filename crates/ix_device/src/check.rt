//! Checking a device.

ghost use Rattle.std.specs.Prelude.{◌≡◌, None, IfOk, IfErr, OnOk};
ghost use Rattle.ix_rec.specs.Ranges.{IndexesFit};
ghost use Rattle.ix_device_rules.specs.Rules.{first_broken};
ghost use Rattle.ix_device.specs.Faults.{IsFault};

use crate::device::Device;
use crate::tables::tables_of;
use ix_device_rules::first_broken_rule;
use ix_rec::{DeviceRec, Place, Rule};
use ix_strings::Names;
use std::alloc::Global;
use thiserror::Error;

/// Why a record is no device.
#[derive(Debug, Drop, Error)]
pub enum DeviceFault {
    /// The first rule that it breaks, and the first place of that rule in reading order.
    #[error("{0:?} at {1:?}")]
    Broken(Rule, Place),
    /// Out of memory.
    #[error("out of memory")]
    Memory,
}

impl Device {
    /// The device of a record, which is given up where it is refused. Its indexes are in their
    /// lists, and its names among the names.
    ///
    /// # Errors
    ///
    /// `Broken` exactly where the record breaks a rule; `Memory`.
    pub fn check(alloc: Global, rec: DeviceRec, _names: &Names) -> Result<Device, DeviceFault>
        requires { IndexesFit rec }
        ensures kept { IfOk result (λ device. device ≡ rec) }
        ensures valid { OnOk result (first_broken rec ≡ None) }
        ensures broken { IfErr result (IsFault (first_broken rec)) }
    {
        match first_broken_rule(alloc, &rec) {
            Err(_) => Err(DeviceFault::Memory),
            Ok(Some((rule, place))) => Err(DeviceFault::Broken(rule, place)),
            Ok(None) => match tables_of(alloc, &rec) {
                Ok(tables) => Ok(Device { rec, tables }),
                Err(_) => Err(DeviceFault::Memory),
            },
        }
    }
}
