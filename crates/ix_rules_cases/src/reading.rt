//! Devices and netlists from bytes.

ghost use Rattle.std.specs.Prelude.{◌≡◌, ◌+◌, ◌^◌, ◌≤◌, [], length, IfOk};
ghost use Rattle.ix_graph.specs.Graph.{graph_of};
ghost use Rattle.ix_legal.specs.Legal.{IsSound};

use anyhow::{Result, bail};
use ix_device::Device;
use ix_device_read::read_device;
use ix_frame::Frame;
use ix_graph::NodeGraph;
use ix_phys_laws::read_netlists_are_sound;
use ix_phys_read::read_phys;
use ix_rec::Phys;
use ix_strings::Names;
use std::alloc::Global;

/// The most bytes that a file may have.
const MOST_BYTES: usize = 1 << 30;

// The device of a file, whose names are added to no names.
fn device_of(alloc: Global, bytes: &[u8], names: &mut Names) -> Result<Device>
    requires { names.old ≡ [] }
    ensures most { length names.new ≤ 2 ^ 28 + 66 }
{
    if bytes.len() > MOST_BYTES {
        bail!("the device is too large");
    }
    let frame = Frame::open(bytes)?;
    let rec = read_device(alloc, &frame, names)?;
    Ok(Device::check(alloc, rec, names)?)
}

// The netlist of a file, whose names are added to those of a device.
fn phys_of(alloc: Global, bytes: &[u8], names: &mut Names) -> Result<Phys>
    requires { length names.old ≤ 2 ^ 28 + 66 }
    ensures sound { IfOk result (IsSound names.new) }
{
    if bytes.len() > MOST_BYTES {
        bail!("the netlist is too large");
    }
    read_netlists_are_sound();
    let frame = Frame::open(bytes)?;
    let phys = read_phys(alloc, &frame, names)?;
    let _count = names.len();
    Ok(phys)
}

/// A device with its graph, and a netlist.
#[derive(Drop)]
pub(crate) struct Given {
    /// The device.
    pub device: Device,
    /// Its graph.
    pub graph: NodeGraph,
    /// The netlist.
    pub phys: Phys,
}

/// The device and the netlist of two files, whose names are added to no names.
pub(crate) fn given_by(
    alloc: Global,
    device: &[u8],
    netlist: &[u8],
    names: &mut Names,
) -> Result<Given>
    requires { names.old ≡ [] }
    ensures graph { IfOk result (λ given. given.graph ≡ graph_of given.device) }
    ensures sound { IfOk result (λ given. IsSound names.new given.phys) }
{
    let device = device_of(alloc, device, names)?;
    let graph = NodeGraph::build(alloc, &device)?;
    let phys = phys_of(alloc, netlist, names)?;
    Ok(Given {
        device,
        graph,
        phys,
    })
}
