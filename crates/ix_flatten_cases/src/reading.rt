//! Devices and designs from bytes.

ghost use Rattle.std.specs.Prelude.{◌≡◌, ◌+◌, ◌^◌, ◌≤◌, List, [], length, IfOk};
ghost use Rattle.ix_message.specs.Shape.{Text};
ghost use Rattle.ix_rec.specs.declared.device.DeviceRec.{DeviceRec};
ghost use Rattle.ix_strings.specs.Names.{KeepsNumbers};
ghost use Rattle.ix_hierarchy.specs.Fits.{AreInputsNamed, NetlistFits};

use anyhow::{Result, bail};
use ix_device::Device;
use ix_device_read::read_device;
use ix_frame::Frame;
use ix_logic_read::read_netlist;
use ix_read_laws::{read_devices_fit, read_netlists_fit};
use ix_rec::NetlistRec;
use ix_strings::Names;
use std::alloc::Global;

/// The most bytes that a file may have.
const MOST_BYTES: usize = 1 << 30;

// The inputs of LUT types are names also where more names were added.
fn inputs_stay()
    ensures { (old new : List Text) (device : DeviceRec) → KeepsNumbers old new
        → AreInputsNamed (length old) device → AreInputsNamed (length new) device }
{}

// The device of a file, whose names are added to no names.
fn device_of(alloc: Global, bytes: &[u8], names: &mut Names) -> Result<Device>
    requires { names.old ≡ [] }
    ensures inputs { IfOk result (AreInputsNamed (length names.new)) }
    ensures most { length names.new ≤ 2 ^ 28 + 66 }
{
    if bytes.len() > MOST_BYTES {
        bail!("the device is too large");
    }
    read_devices_fit();
    let frame = Frame::open(bytes)?;
    let rec = read_device(alloc, &frame, names)?;
    Ok(Device::check(alloc, rec, names)?)
}

// The design of a file, whose names are added to those of a device.
fn design_of(alloc: Global, bytes: &[u8], names: &mut Names) -> Result<NetlistRec>
    requires { length names.old ≤ 2 ^ 28 + 66 }
    ensures fits { IfOk result (NetlistFits (length names.new)) }
    ensures keeps { KeepsNumbers names.old names.new }
    ensures most { length names.new ≤ 2 ^ 29 + 131 }
{
    if bytes.len() > MOST_BYTES {
        bail!("the design is too large");
    }
    read_netlists_fit();
    let frame = Frame::open(bytes)?;
    Ok(read_netlist(alloc, &frame, names)?)
}

/// A device and a design.
#[derive(Drop)]
pub(crate) struct Given {
    /// The device.
    pub device: Device,
    /// The design.
    pub rec: NetlistRec,
}

/// The device and the design of two files, whose names are added to no names.
pub(crate) fn given_by(
    alloc: Global,
    device: &[u8],
    design: &[u8],
    names: &mut Names,
) -> Result<Given>
    requires { names.old ≡ [] }
    ensures inputs { IfOk result (λ given. AreInputsNamed (length names.new) given.device) }
    ensures fits { IfOk result (λ given. NetlistFits (length names.new) given.rec) }
    ensures most { length names.new ≤ 2 ^ 29 + 131 }
{
    inputs_stay();
    let device = device_of(alloc, device, names)?;
    let rec = design_of(alloc, design, names)?;
    Ok(Given { device, rec })
}
