//! The node graph of a device as what is searched.

ghost use Rattle.std.specs.Prelude.{◌≡◌, [], length};
ghost use Rattle.ix_rec.specs.Ranges.{IndexesFit};
ghost use Rattle.ix_least_times.specs.Nodes.{node_edges};

use anyhow::{Result, bail};
use ix_device::Device;
use ix_device_read::read_device;
use ix_frame::Frame;
use ix_graph::NodeGraph;
use ix_least::Edges;
use ix_num::NodeId;
use ix_rec::DeviceRec;
use ix_strings::Names;
use std::alloc::Global;

/// The most bytes of a device.
const MOST_BYTES: usize = 1 << 30;

/// The nodes of a graph as points, and its directed PIPs as edges.
#[derive(Drop)]
pub struct Nodes {
    graph: NodeGraph,
}

impl Edges for Nodes {
    ghost point_count = { λ nodes. length nodes.graph.firsts };

    ghost edges_out = { λ nodes n. node_edges nodes.graph n };

    fn points(&self) -> u32 {
        self.graph.nodes()
    }

    fn degree(&self, p: u32) -> u32 {
        self.graph.degree(NodeId::new(p))
    }

    fn edge(&self, p: u32, i: u32) -> (u32, u32) {
        let (pip, node) = self.graph.out_edge(NodeId::new(p), i);
        (pip.get(), node.get())
    }
}

/// The nodes of a record that is a device.
fn nodes_of_record(alloc: Global, rec: DeviceRec, names: &Names) -> Result<Nodes>
    requires { IndexesFit rec }
{
    let device = Device::check(alloc, rec, names)?;
    let graph = NodeGraph::build(alloc, &device)?;
    Ok(Nodes { graph })
}

/// The nodes of a device by the bytes of its file.
pub fn nodes_of(alloc: Global, bytes: &[u8]) -> Result<Nodes> {
    if bytes.len() > MOST_BYTES {
        bail!("a file too long");
    }
    let frame = Frame::open(bytes)?;
    let mut names = Names::new(alloc);
    let rec = read_device(alloc, &frame, &mut names)?;
    nodes_of_record(alloc, rec, &names)
}
