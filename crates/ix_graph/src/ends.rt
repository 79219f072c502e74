//! The ends of segments.

ghost use Rattle.std.specs.Prelude.{◌≡◌, ◌<◌, length, slice_get, Some, IfSome};
ghost use Rattle.ix_device.specs.Lookups.{sites_of};
ghost use Rattle.ix_graph.specs.Graph.{graph_of};
ghost use Rattle.ix_graph.specs.Ends.{bel_pin_named as bel_pin_seen, wire_at as wire_seen};
ghost use Rattle.ix_graph.specs.Ends.{node_of_pin as node_seen, both};
ghost use Rattle.ix_graph.specs.Ends.{bel_pin_ends as bel_pin_ends_seen};
ghost use Rattle.ix_graph.specs.Ends.{site_pin_ends as site_pin_ends_seen};
ghost use Rattle.ix_graph.specs.Ends.{site_pip_ends as site_pip_ends_seen};
ghost use Rattle.ix_graph.specs.Ends.{named_pip_ends as named_pip_ends_seen, ends_in_site, of_site};
ghost use Rattle.ix_graph.specs.Ends.{ends};

use crate::graph::NodeGraph;
use ix_device::Device;
use ix_num::{BelPinId, NameId, Res, SiteId, SitePinId, SiteTypeId};
use ix_rec::{BranchKind, Direction, Segment};

// The pin of these names of a site type.
fn bel_pin_named(device: &Device, t: SiteTypeId, bel: NameId, pin: NameId) -> Option<BelPinId>
    requires { t < length device.now.site_type_list }
    ensures pin { result ≡ bel_pin_seen device.now t bel pin }
    ensures inside { IfSome result (λ p. IfSome (slice_get device.now.site_type_list t) (λ ty.
        p < length ty.bel_pins)) }
{
    let bel = device.bel(t, bel)?;
    device.bel_pin(t, bel, pin)
}

// The site wire of a BEL pin.
fn wire_at(device: &Device, site: SiteId, t: SiteTypeId, pin: BelPinId) -> Option<Res>
    requires ty { t < length device.now.site_type_list }
    requires pin { IfSome (slice_get device.now.site_type_list t) (λ ty. pin < length ty.bel_pins) }
    ensures { result ≡ wire_seen device.now site t pin }
{
    let wire = device.wire_of(t, pin)?;
    Some(Res::Wire(site, wire))
}

// Two resources that are both there.
fn both(from: Option<Res>, to: Option<Res>) -> Option<(Res, Res)>
    ensures { result ≡ both from to }
{
    Some((from?, to?))
}

// A BEL pin has its site wire as both ends.
fn bel_pin_ends(
    device: &Device,
    site: SiteId,
    t: SiteTypeId,
    bel: NameId,
    pin: NameId,
) -> Option<(Res, Res)>
    requires { t < length device.now.site_type_list }
    ensures { result ≡ bel_pin_ends_seen device.now bel pin site t }
{
    let pin = bel_pin_named(device, t, bel, pin)?;
    both(wire_at(device, site, t, pin), wire_at(device, site, t, pin))
}

// A site PIP goes from the site wire of its input pin to that of its output pin.
fn site_pip_ends(
    device: &Device,
    site: SiteId,
    t: SiteTypeId,
    bel: NameId,
    pin: NameId,
) -> Option<(Res, Res)>
    requires { t < length device.now.site_type_list }
    ensures { result ≡ site_pip_ends_seen device.now bel pin site t }
{
    let from = bel_pin_named(device, t, bel, pin)?;
    let to = device.site_pip(t, from)?;
    both(wire_at(device, site, t, from), wire_at(device, site, t, to))
}

impl NodeGraph {
    // The node of the tile wire of a site's pin.
    fn node_of_pin(&self, device: &Device, site: SiteId, pin: SitePinId) -> Option<Res>
        requires graph { self.now ≡ graph_of device.now }
        requires site { site < length (sites_of device.now) }
        ensures { result ≡ node_seen device.now site pin }
    {
        let wire = device.wire_of_site_pin(site, pin)?;
        Some(Res::Node(self.node_of(device.tile_of(site), wire)))
    }

    // An output site pin goes from its site wire to its node, an input site pin the other way.
    fn site_pin_ends(
        &self,
        device: &Device,
        site: SiteId,
        t: SiteTypeId,
        name: NameId,
    ) -> Option<(Res, Res)>
        requires graph { self.now ≡ graph_of device.now }
        requires site { site < length (sites_of device.now) }
        requires ty { t < length device.now.site_type_list }
        ensures { result ≡ site_pin_ends_seen device.now name site t }
    {
        let number = device.site_pin(t, name)?;
        let ty = device.rec().site_type_list.at(t.get() as usize);
        let pin = ty.pins.at(number.get() as usize);
        let wire = wire_at(device, site, t, pin.belpin);
        let node = self.node_of_pin(device, site, number);
        match pin.dir {
            Direction::Output => both(wire, node),
            Direction::Input => both(node, wire),
            Direction::Inout => None,
        }
    }

    // The first PIP of these names goes between the nodes of its wires.
    fn named_pip_ends(&self, device: &Device, segment: &Segment) -> Option<(Res, Res)>
        requires graph { self.now ≡ graph_of device.now }
        ensures { result ≡ named_pip_ends_seen device.now segment.now.first segment.now.second
            segment.now.third segment.now.forward }
    {
        let tile = device.tile(segment.first)?;
        let pip = self.pip_named(device, tile, segment.second, segment.third, segment.forward)?;
        let (from, to) = self.pip_ends(pip);
        Some((Res::Node(from), Res::Node(to)))
    }

    // The ends of a segment in the site of its name.
    fn site_ends(&self, device: &Device, segment: &Segment) -> Option<(Res, Res)>
        requires graph { self.now ≡ graph_of device.now }
        ensures { result ≡ of_site device.now segment.now.first
            (ends_in_site segment.now.kind device.now segment.now.second segment.now.third) }
    {
        let site = device.site(segment.first)?;
        let t = device.type_of(site);
        match segment.kind {
            BranchKind::BelPin => bel_pin_ends(device, site, t, segment.second, segment.third),
            BranchKind::SitePin => self.site_pin_ends(device, site, t, segment.second),
            BranchKind::SitePip => site_pip_ends(device, site, t, segment.second, segment.third),
            BranchKind::Pip => None,
        }
    }

    /// The two ends of a segment; none exactly where it names what isn't there, where its BEL pin,
    /// its site pin's BEL pin or a pin of its site PIP is in no site wire, at an inout site pin,
    /// where no conventional PIP of its wires goes this way, and where no site PIP leads from its
    /// pin, or the first that does is from an inverting pin or of a BEL that isn't for routing. The
    /// device is the one from which the graph was built.
    pub fn ends(&self, device: &Device, segment: &Segment) -> Option<(Res, Res)>
        requires graph { self.now ≡ graph_of device.now }
        ensures { result ≡ ends device.now segment.now }
    {
        match segment.kind {
            BranchKind::Pip => self.named_pip_ends(device, segment),
            _ => self.site_ends(device, segment),
        }
    }
}
