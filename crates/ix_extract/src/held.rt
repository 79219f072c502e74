//! The nets that hold site wires.

ghost use Rattle.std.specs.Prelude.{◌≡◌, ◌<◌, length, slice_get, Some};
ghost use Rattle.ix_num.specs.declared.resource.Res.TheVariants.{Wire};
ghost use Rattle.ix_rec.specs.declared.phys.PhysNet.{PhysNet as NetSeen};
ghost use Rattle.ix_legal.specs.Holders.{as_holder};
ghost use Rattle.ix_ends.specs.Ends.{IsThere};
ghost use Rattle.ix_extract.specs.Taken.{AreRanks, TellHolders, TellsHolder};

use ix_device::Device;
use ix_ends::Ends;
use ix_holders::Holders;
use ix_lut_places::LutPlaces;
use ix_num::{NetId, NetRef, SiteId, SiteWireId};
use ix_rec::{NetType, Phys};
use ix_strings::Names;
use ix_table_keys::TableKeys;

/// A netlist on a device, with the tables that tell what is in it.
#[derive(Clone, Copy)]
pub(crate) struct Netlist<'a> {
    /// The names.
    pub names: &'a Names,
    /// The device.
    pub device: &'a Device,
    /// The netlist.
    pub phys: &'a Phys,
    /// The LUTs of the device.
    pub places: &'a LutPlaces,
    /// The tables of its LUT elements.
    pub keys: &'a TableKeys,
    /// The ends of its segments.
    pub ends: &'a Ends,
    /// The holders of its resources.
    pub holders: &'a Holders,
    /// By net, how many signal nets stand before it.
    pub ranks: &'a [u32],
}

// The holder that a net of the netlist is.
fn as_net(phys: &Phys, ranks: &[u32], net: u32) -> NetRef
    requires ranks { AreRanks phys.now.nets (length phys.now.nets) ranks.now }
    requires inside { net < length phys.now.nets }
    ensures { (its : NetSeen) → slice_get phys.now.nets net ≡ Some its
        → result ≡ as_holder phys.now.nets net its.ty }
{
    match phys.nets.at(net as usize).ty {
        NetType::Signal => NetRef::Signal(NetId::new(ranks[net as usize])),
        NetType::Gnd => NetRef::Gnd,
        NetType::Vcc => NetRef::Vcc,
    }
}

/// The net that holds a site's wire; none exactly where no net does.
pub(crate) fn holder_of(on: &Netlist<'_>, site: SiteId, wire: SiteWireId) -> Option<NetRef>
    requires ready { TellHolders on.now.device.now on.now.phys.now on.now.ends.now
        on.now.holders.now on.now.ranks.now }
    requires there { IsThere on.now.device.now (Wire site wire) }
    ensures { TellsHolder on.now.device.now on.now.phys.now.nets site wire result }
{
    match on.ends.wire(site, wire) {
        None => None,
        Some(number) => match on.holders.first(number) {
            None => None,
            Some(net) => Some(as_net(on.phys, on.ranks, net)),
        },
    }
}
