//! Numbers of resources, as they are given.

ghost use Rattle.std.specs.Prelude.{◌≡◌, ◌<◌, ◌≤◌, ◌+◌, ◌^◌, Some, length, IfOk, IfSome, IfNone};
ghost use Rattle.ix_device.specs.Lookups.{sites_of};
ghost use Rattle.ix_graph.specs.Graph.{graph_of};
ghost use Rattle.ix_ends.specs.Ends.{IsThere, wires_of_site};
ghost use Rattle.ix_ends.specs.Numbering.{AreNumbers, GivesBase, GivesNumber, HasNoRoom};
ghost use Rattle.ix_ends.specs.Numbering.{LacksNumber};
ghost use Rattle.ix_num.specs.declared.resource.Res.TheVariants.{Wire};

use ix_device::Device;
use ix_graph::NodeGraph;
use ix_num::{Memory, Res, SiteId, SiteWireId};
use std::alloc::Global;

/// The numbers that resources have so far. A node's number is its own, and the wires of a site get
/// theirs together, behind all that were given before.
#[derive(Drop)]
pub struct Numbers {
    /// By site the number of its first wire, where its wires have numbers.
    pub bases: Vec<Option<u32>>,
    /// A number above all that are given.
    pub count: u32,
}

// How many wires a site has.
fn wires_of(device: &Device, site: SiteId) -> usize
    requires { site < length (sites_of device.now) }
    ensures { wires_of_site device.now site ≡ Some result }
{
    let t = device.type_of(site);
    let ty = device.rec().site_type_list.at(t.get() as usize);
    ty.site_wires.len()
}

// A number and so many more; none exactly where 32 bits don't hold it.
fn with_more(count: u32, more: usize) -> Option<u32>
    ensures fits { IfSome result (λ n. n ≡ count + more) }
    ensures few { IfSome result (λ n. n < 2 ^ 32) }
    ensures past { IfNone result (2 ^ 32 ≤ count + more) }
{
    let room = u32::MAX - count;
    if more <= room as usize {
        Some(count + more as u32)
    } else {
        None
    }
}

impl Numbers {
    /// The numbers of nodes alone. `Memory` is the only error.
    pub fn new(alloc: Global, device: &Device, graph: &NodeGraph) -> Result<Numbers, Memory>
        requires { graph.now ≡ graph_of device.now }
        ensures { IfOk result (AreNumbers device.now) }
    {
        let mut bases = Vec::new(alloc);
        bases.resize(device.sites() as usize, None)?;
        Ok(Numbers {
            bases,
            count: graph.nodes(),
        })
    }

    // The number of a site's first wire; none exactly where its wires have no numbers yet, and
    // there aren't as many left in 32 bits.
    fn base(&mut self, device: &Device, site: SiteId) -> Option<u32>
        requires site { site < length (sites_of device.now) }
        requires numbers { AreNumbers device.now self.old }
        ensures given { IfSome result (GivesBase device.now self.old self.new site) }
        ensures past { IfNone result (HasNoRoom device.now self.old site) }
    {
        let place = site.get() as usize;
        if let Some(base) = self.bases[place] {
            return Some(base);
        }
        let base = self.count;
        self.count = with_more(base, wires_of(device, site))?;
        self.bases[place] = Some(base);
        Some(base)
    }

    // The number of a site's wire; none exactly where there is no number left for it.
    fn wire(&mut self, device: &Device, site: SiteId, wire: SiteWireId) -> Option<u32>
        requires there { IsThere device.now (Wire site wire) }
        requires numbers { AreNumbers device.now self.old }
        ensures given { IfSome result (GivesNumber device.now self.old self.new (Wire site wire)) }
        ensures past { IfNone result (HasNoRoom device.now self.old site) }
    {
        let base = self.base(device, site)?;
        Some(base + wire.get())
    }

    /// The number of a resource; none exactly where there is no number left for it.
    pub fn number(&mut self, device: &Device, r: Res) -> Option<u32>
        requires there { IsThere device.now r }
        requires numbers { AreNumbers device.now self.old }
        ensures given { IfSome result (GivesNumber device.now self.old self.new r) }
        ensures past { IfNone result (LacksNumber device.now self.old r) }
    {
        match r {
            Res::Node(node) => Some(node.get()),
            Res::Wire(site, wire) => self.wire(device, site, wire),
        }
    }
}
