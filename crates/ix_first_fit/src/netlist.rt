//! The physical netlist of cells on their places.

ghost use Rattle.std.specs.Prelude.{◌≡◌, ◌<◌, true, length, IfOk};
ghost use Rattle.std.specs.List.{AllByRecursion};
ghost use Rattle.ix_device.specs.Lookups.{sites_of};
ghost use Rattle.ix_first_fit.specs.Spots.{admits};
ghost use Rattle.ix_first_fit.specs.Fit.{FitFirst};
ghost use Rattle.ix_first_fit.specs.Netlist.{IsPlacement, ArePlacements, AreInstances, IsNetlist};
ghost use Rattle.ix_first_fit.specs.Netlist.{instance_told, instance_wanted};

use crate::cell::Spot;
use crate::pin_map::pin_map;
use ix_device::Device;
use ix_first::FirstByKey;
use ix_keys::Key;
use ix_num::{Memory, SiteId};
use ix_rec::{CellPlacement, FlatCell, Items, Phys, SiteInstance};
use std::alloc::Global;

// The placement of a cell.
fn placement(
    alloc: Global,
    device: &Device,
    cell: &FlatCell,
    spot: &Spot,
) -> Result<CellPlacement, Memory>
    requires { admits device.now cell.now.ty spot.now ≡ true }
    ensures { IfOk result (IsPlacement device.now cell.now spot.now) }
{
    let site = device.site_name(spot.site);
    let t = device.type_of(spot.site);
    let site_type = device.rec().site_type_list.at(t.get() as usize);
    let bel = site_type.bels.at(spot.bel.get() as usize).name;
    let pin_map = pin_map(alloc, device, cell.ty, spot, t, bel)?;
    Ok(CellPlacement {
        cell_name: cell.name,
        ty: cell.ty,
        site,
        bel,
        pin_map,
    })
}

// The placements of the cells, in their order.
fn placements(
    alloc: Global,
    device: &Device,
    cells: &Items<FlatCell>,
    spots: &Items<Spot>,
) -> Result<Items<CellPlacement>, Memory>
    requires fit { FitFirst device.now cells.now spots.now }
    requires count { length spots.now ≡ length cells.now }
    ensures { IfOk result (ArePlacements device.now cells.now spots.now) }
{
    let mut all = Items::new(alloc);
    for i in 0..spots.len() {
        all.push(placement(alloc, device, cells.at(i), spots.at(i))?)?;
    }
    Ok(all)
}

// The instance of a site, as its own type.
fn instance(device: &Device, site: SiteId) -> SiteInstance
    requires { site < length (sites_of device.now) }
    ensures { instance_told result ≡ instance_wanted device.now site }
{
    let t = device.type_of(site);
    SiteInstance {
        site: device.site_name(site),
        ty: device.rec().site_type_list.at(t.get() as usize).name,
    }
}

// One instance of each used site, in the order of first use.
fn instances(
    alloc: Global,
    device: &Device,
    spots: &Items<Spot>,
) -> Result<Items<SiteInstance>, Memory>
    requires { AllByRecursion (λ p. p.site < length (sites_of device.now)) spots.now }
    ensures { IfOk result (AreInstances device.now spots.now) }
{
    let mut used = FirstByKey::new(alloc);
    let mut all = Items::new(alloc);
    for i in 0..spots.len() {
        let site = spots.at(i).site;
        if used.put(Key::of_name(site.get()), ())? {
            all.push(instance(device, site))?;
        }
    }
    Ok(all)
}

/// The netlist of cells on their places.
pub(crate) fn netlist(
    alloc: Global,
    device: &Device,
    cells: &Items<FlatCell>,
    spots: &Items<Spot>,
) -> Result<Phys, Memory>
    requires fit { FitFirst device.now cells.now spots.now }
    requires count { length spots.now ≡ length cells.now }
    ensures { IfOk result (IsNetlist device.now cells.now spots.now) }
{
    Ok(Phys {
        part: device.rec().name,
        placements: placements(alloc, device, cells, spots)?,
        nets: Items::new(alloc),
        site_insts: instances(alloc, device, spots)?,
        properties: Items::new(alloc),
    })
}
