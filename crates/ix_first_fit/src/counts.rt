//! How many cells a type has, and how many BELs admit it.

ghost use Rattle.std.specs.Prelude.{◌≡◌, ◌<◌, ℕ, Some, length, slice_get, unwrap_or, IfOk, IfSome};
ghost use Rattle.std.specs.Prelude.{OnOk, IfErr};
ghost use Rattle.ix_device.specs.Lookups.{type_of_site};
ghost use Rattle.ix_first_fit.specs.ByTypes.{of_type};
ghost use Rattle.ix_first_fit.specs.Spots.{takers_at, count_bels as count_of_bels, cells_of};
ghost use Rattle.ix_first_fit.specs.Fit.{AllSuffice};
ghost use Rattle.ix_first_fit.specs.Answers.{IsFitFault};

use crate::by_type::ByType;
use crate::fault::FitFault;
use ix_device::Device;
use ix_first::{FirstByKey, number_of};
use ix_keys::Key;
use ix_num::{BelId, Memory, NameId, SiteId, SiteTypeId};
use ix_rec::{DeviceRec, FlatCell, Items};
use std::alloc::Global;

// How many cells each type has.
fn cell_counts(alloc: Global, cells: &Items<FlatCell>) -> Result<ByType<u64>, Memory>
    ensures { IfOk result (λ counts. (ty : ℕ)
        → unwrap_or (of_type counts ty) 0 ≡ cells_of ty cells.now) }
{
    let mut counts = ByType::new(alloc);
    for i in 0..cells.len() {
        let ty = cells.at(i).ty;
        let count = counts.get(ty).unwrap_or(0);
        counts.set(ty, count + 1)?;
    }
    Ok(counts)
}

/// How many BELs a site type has.
pub(crate) fn bels_of(rec: &DeviceRec, t: SiteTypeId) -> Result<u32, Memory>
    requires { t < length rec.now.site_type_list }
    ensures { IfOk result (λ n. IfSome (slice_get rec.now.site_type_list t) (λ ty. n
        ≡ length ty.bels)) }
{
    number_of(rec.site_type_list.at(t.get() as usize).bels.len())
}

// How many BELs admit a cell type in each site of a type.
fn takers_of(device: &Device, ty: NameId, t: SiteTypeId) -> Result<u32, Memory>
    requires { t < length device.now.site_type_list }
    ensures { IfOk result (λ n. (site : ℕ) → type_of_site device.now site ≡ Some t
        → n ≡ takers_at device.now ty site) }
{
    let mut count = 0;
    for bel in 0..bels_of(device.rec(), t)? {
        if device.takes(ty, t, BelId::new(bel)) {
            count += 1;
        }
    }
    Ok(count)
}

// The same for each site type.
fn takers(alloc: Global, device: &Device, ty: NameId) -> Result<Items<u32>, Memory>
    ensures { IfOk result (λ all. (site t : ℕ) → type_of_site device.now site ≡ Some t
        → slice_get all t ≡ Some (takers_at device.now ty site)) }
{
    let mut all = Items::new(alloc);
    for t in 0..device.rec().site_type_list.len() {
        all.push(takers_of(device, ty, SiteTypeId::new(number_of(t)?))?)?;
    }
    Ok(all)
}

// How many BELs of sites admit a cell type.
fn count_bels(alloc: Global, device: &Device, ty: NameId) -> Result<u64, Memory>
    ensures { IfOk result (λ n. n ≡ count_of_bels device.now ty) }
{
    let takers = takers(alloc, device, ty)?;
    let mut count: u64 = 0;
    for site in 0..device.sites() {
        let t = device.type_of(SiteId::new(site));
        count += u64::from(*takers.at(t.get() as usize));
    }
    Ok(count)
}

/// Whether each type has no more cells than the BELs that admit it.
///
/// # Errors
///
/// `TooFewBels` for the first type, by first cell, that has more; `Memory`.
pub(crate) fn check_counts(
    alloc: Global,
    device: &Device,
    cells: &Items<FlatCell>,
) -> Result<(), FitFault>
    ensures ok { OnOk result (AllSuffice device.now cells.now) }
    ensures err { IfErr result (IsFitFault device.now cells.now) }
{
    let counts = cell_counts(alloc, cells)?;
    let mut seen = FirstByKey::new(alloc);
    for i in 0..cells.len() {
        let kind = cells.at(i).ty;
        if seen.put(Key::of_name(kind.get()), ())? {
            let cells = counts.get(kind).unwrap_or(0);
            let bels = count_bels(alloc, device, kind)?;
            if bels < cells {
                return Err(FitFault::TooFewBels { kind, cells, bels });
            }
        }
    }
    Ok(())
}
