//! L1 as a whole.

ghost use Rattle.std.specs.Prelude.{IfOk};
ghost use Rattle.ix_rec.specs.declared.device.DeviceRec.{DeviceRec};
ghost use Rattle.ix_rec.specs.declared.phys.Phys.{Phys as PhysSeen};
ghost use Rattle.ix_legal.specs.Legal.{IsSound};
ghost use Rattle.ix_legal.specs.Names.{IsNamed, NetIsNamed};
ghost use Rattle.ix_legal.specs.Spots.{Tells};
ghost use Rattle.ix_walk.specs.Firsts.{TellsMisfit};
ghost use Rattle.ix_walk.specs.Marks.{AreNamesOf};
ghost use Rattle.ix_named_there.specs.Ends.{TellsEnds};
ghost use Rattle.ix_named_there.specs.Parts.{AllInstancesNamed, AllPlacementsNamed, AreNetsNamed};
ghost use Rattle.ix_named_there.specs.Parts.{site_of};

use crate::instances::first_instance;
use crate::nets::first_net;
use crate::placements::first_placement;
use crate::properties::first_property;
use ix_device::Device;
use ix_legal::Spot;
use ix_num::Memory;
use ix_rec::Phys;
use ix_strings::Names;
use ix_walk::NameMarks;
use std::alloc::Global;

// The first of two breaks: of a net as such, and of a segment. A net comes before its segments.
fn first_of_nets(net: Option<u32>, segment: Option<(u32, u32)>) -> Option<Spot>
    ensures { (rec : DeviceRec) (phys : PhysSeen) → TellsMisfit (NetIsNamed phys) phys.nets net
        → TellsEnds rec phys segment → Tells (AreNetsNamed rec phys) result }
{
    match (net, segment) {
        (None, None) => None,
        (Some(n), None) => Some(Spot::NetAt(n)),
        (None, Some((m, k))) => Some(Spot::SegmentAt(m, k)),
        (Some(n), Some((m, k))) => {
            if n <= m {
                Some(Spot::NetAt(n))
            } else {
                Some(Spot::SegmentAt(m, k))
            }
        }
    }
}

// The first break of a netlist whose instances and placements keep L1. The sites of its instances
// are marked.
fn first_from_nets(
    alloc: Global,
    device: &Device,
    phys: &Phys,
    names: &Names,
    sites: &NameMarks,
    without_ends: Option<(u32, u32)>,
) -> Result<Option<Spot>, Memory>
    requires sound { IsSound names.now phys.now }
    requires ends { TellsEnds device.now phys.now without_ends }
    requires instances { AllInstancesNamed device.now phys.now }
    requires placements { AllPlacementsNamed device.now phys.now }
    requires sites { AreNamesOf site_of phys.now.site_insts sites.now }
    ensures told { IfOk result (Tells (IsNamed names.now device.now phys.now)) }
{
    let net = first_net(alloc, phys, names.len())?;
    match first_of_nets(net, without_ends) {
        Some(spot) => Ok(Some(spot)),
        None => match first_property(alloc, device, phys, names, sites)? {
            Some(i) => Ok(Some(Spot::PropertyAt(i))),
            None => Ok(None),
        },
    }
}

// The first break of a netlist whose instances keep L1. Their sites are marked.
fn first_from_placements(
    alloc: Global,
    device: &Device,
    phys: &Phys,
    names: &Names,
    sites: &NameMarks,
    without_ends: Option<(u32, u32)>,
) -> Result<Option<Spot>, Memory>
    requires sound { IsSound names.now phys.now }
    requires ends { TellsEnds device.now phys.now without_ends }
    requires instances { AllInstancesNamed device.now phys.now }
    requires sites { AreNamesOf site_of phys.now.site_insts sites.now }
    ensures told { IfOk result (Tells (IsNamed names.now device.now phys.now)) }
{
    match first_placement(alloc, device, &phys.placements, names.len())? {
        Some(i) => Ok(Some(Spot::PlacementAt(i))),
        None => first_from_nets(alloc, device, phys, names, sites, without_ends),
    }
}

/// The first place of the walk at which a netlist breaks L1; none exactly where it keeps it. Given
/// is the first segment that has no ends, as a net and its segment, or none where all have ends. It
/// takes time by what the netlist lists, segments left out, and two bytes a name of the table.
///
/// # Errors
///
/// Want of memory.
pub fn first_unnamed(
    alloc: Global,
    device: &Device,
    phys: &Phys,
    names: &Names,
    without_ends: Option<(u32, u32)>,
) -> Result<Option<Spot>, Memory>
    requires sound { IsSound names.now phys.now }
    requires ends { TellsEnds device.now phys.now without_ends }
    ensures told { IfOk result (Tells (IsNamed names.now device.now phys.now)) }
{
    let mut sites = NameMarks::new(alloc, names.len())?;
    match first_instance(device, &phys.site_insts, &mut sites) {
        Some(i) => Ok(Some(Spot::InstanceAt(i))),
        None => first_from_placements(alloc, device, phys, names, &sites, without_ends),
    }
}
