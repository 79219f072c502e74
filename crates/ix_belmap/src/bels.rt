//! How many BELs of a site type admit a cell type, and how many sites a type has.

ghost use Rattle.std.specs.Prelude.{◌≡◌, ◌<◌, ◌≤◌, ◌^◌, ℕ, Some, length, slice_get, IfOk, IfSome};
ghost use Rattle.ix_device.specs.Lookups.{sites_of};
ghost use Rattle.ix_belmap.specs.Counts.{bels_in_type as bels_in_type_seen};
ghost use Rattle.ix_belmap.specs.Counts.{bels_of_device as bels_of_device_seen};
ghost use Rattle.ix_belmap.specs.Groups.{is_home as is_home_seen};
ghost use Rattle.ix_belmap.specs.Sites.{sites_of_type as sites_of_type_seen, AreSiteCounts};

use ix_device::Device;
use ix_num::{BelId, Memory, NameId, SiteId, SiteTypeId};
use std::alloc::Global;

// The id of the site type at a place, which its name tells.
fn type_at(device: &Device, place: usize) -> SiteTypeId
    requires { place < length device.now.site_type_list }
    ensures { result ≡ place }
{
    let name = device.rec().site_type_list.at(place).name;
    match device.site_type(name) {
        Some(t) => t,
        None => unreachable!(),
    }
}

// The id of the BEL at a place of a site type, which its name tells.
fn bel_at(device: &Device, t: SiteTypeId, place: usize) -> BelId
    requires ty { t < length device.now.site_type_list }
    requires bel { IfSome (slice_get device.now.site_type_list t) (λ ty. place < length ty.bels) }
    ensures id { result ≡ place }
    ensures few { place < 2 ^ 32 }
{
    let ty = device.rec().site_type_list.at(t.get() as usize);
    match device.bel(t, ty.bels.at(place).name) {
        Some(bel) => BelId::new(bel.get()),
        None => unreachable!(),
    }
}

// How many BELs of a site type admit a cell type.
fn bels_in_type(device: &Device, ty: NameId, t: SiteTypeId) -> u64
    requires { t < length device.now.site_type_list }
    ensures count { IfSome (slice_get device.now.site_type_list t) (λ seen. result
        ≡ bels_in_type_seen device.now ty seen) }
    ensures few { result ≤ 2 ^ 32 }
{
    let mut count = 0;
    for place in 0..device.rec().site_type_list.at(t.get() as usize).bels.len() {
        if device.takes(ty, t, bel_at(device, t, place)) {
            count += 1;
        }
    }
    count
}

/// Whether a site type admits a cell type by one of its BELs. The site type is told by its place.
pub(crate) fn is_home(device: &Device, ty: NameId, place: usize) -> bool
    requires { place < length device.now.site_type_list }
    ensures { IfSome (slice_get device.now.site_type_list place) (λ seen. result
        ≡ is_home_seen device.now ty seen) }
{
    bels_in_type(device, ty, type_at(device, place)) > 0
}

// How many sites are of a type.
fn sites_of_type(device: &Device, t: SiteTypeId) -> u64
    ensures count { result ≡ sites_of_type_seen device.now t }
    ensures few { length (sites_of device.now) < 2 ^ 32 }
{
    let mut count = 0;
    for site in 0..device.sites() {
        if t == device.type_of(SiteId::new(site)) {
            count += 1;
        }
    }
    count
}

/// How many sites are of each site type.
pub(crate) fn site_counts(alloc: Global, device: &Device) -> Result<Vec<u64>, Memory>
    ensures { IfOk result (λ counts. AreSiteCounts device.now counts.items) }
{
    let mut counts: Vec<u64> = vec![in alloc; 0; device.rec().site_type_list.len()]?;
    for site in 0..device.sites() {
        let t = device.type_of(SiteId::new(site));
        counts[t.get() as usize] += 1;
    }
    Ok(counts)
}

// How many sites are of a type, which the counts tell where they are there.
fn sites_told(device: &Device, counts: Option<&Vec<u64>>, t: SiteTypeId) -> u64
    requires counts { IfSome counts (λ c. AreSiteCounts device.now c.now.items) }
    requires ty { t < length device.now.site_type_list }
    ensures count { result ≡ sites_of_type_seen device.now t }
    ensures few { length (sites_of device.now) < 2 ^ 32 }
{
    match counts {
        Some(counts) => counts[t.get() as usize],
        None => sites_of_type(device, t),
    }
}

/// How many pairs of a site and a BEL of it admit a cell type. Where the counts of sites are there,
/// no site is looked at; else the sites are walked once for each site type that admits the cell
/// type.
pub(crate) fn bels_of_device(device: &Device, ty: NameId, counts: Option<&Vec<u64>>) -> u64
    requires { IfSome counts (λ c. AreSiteCounts device.now c.now.items) }
    ensures { result ≡ bels_of_device_seen device.now ty }
{
    let mut count: u64 = 0;
    for place in 0..device.rec().site_type_list.len() {
        let t = type_at(device, place);
        let bels = bels_in_type(device, ty, t);
        if bels > 0 {
            count += bels * sites_told(device, counts, t);
        }
    }
    count
}
