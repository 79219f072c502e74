//! First fit: each cell, in order, takes the first place that is free and admits it.

ghost use Rattle.std.specs.Prelude.{◌≡◌, ◌<◌, ℕ, Some, None, true, length, IfOk, IfErr};
ghost use Rattle.ix_device.specs.Lookups.{sites_of};
ghost use Rattle.ix_first_fit.specs.ByTypes.{of_type};
ghost use Rattle.ix_first_fit.specs.Fit.{AllSuffice, FitFirst};
ghost use Rattle.ix_first_fit.specs.Answers.{IsFitFault};
ghost use Rattle.ix_first_fit.specs.declared.cell.Spot.{Spot as SpotSeen};
ghost use Rattle.ix_first_fit.specs.Taken.{NoneBefore, IsFirstBel, IsFirstSpot};

use crate::by_type::ByType;
use crate::cell::Spot;
use crate::counts::bels_of;
use crate::fault::FitFault;
use crate::places::Places;
use ix_device::Device;
use ix_first::number_of;
use ix_num::{BelId, Memory, NameId, SiteId};
use ix_rec::{FlatCell, Items};
use std::alloc::Global;

// The first BEL of a site, from a number on, that is free and admits a cell type.
fn first_bel(
    device: &Device,
    taken: &Places,
    ty: NameId,
    site: SiteId,
    first: u32,
) -> Result<Option<BelId>, Memory>
    requires { site < length (sites_of device.now) }
    ensures { IfOk result (IsFirstBel device.now taken.now ty site first) }
{
    let t = device.type_of(site);
    for bel in first..bels_of(device.rec(), t)? {
        let bel = BelId::new(bel);
        if device.takes(ty, t, bel) {
            if !taken.has(&Spot { site, bel }) {
                return Ok(Some(bel));
            }
        }
    }
    Ok(None)
}

// The first place that is free and admits a cell type. Those before the start are known to be
// taken.
fn first_spot(
    device: &Device,
    taken: &Places,
    ty: NameId,
    start: Spot,
) -> Result<Option<Spot>, Memory>
    requires { NoneBefore device.now taken.now ty start }
    ensures { IfOk result (IsFirstSpot device.now taken.now ty) }
{
    let mut first = start.bel.get();
    for site in start.site.get()..device.sites() {
        let site = SiteId::new(site);
        if let Some(bel) = first_bel(device, taken, ty, site, first)? {
            return Ok(Some(Spot { site, bel }));
        }
        first = 0;
    }
    Ok(None)
}

// The first place that is free and admits a cell type, sought from where the last cell of the type
// was placed: taken places stay taken.
fn next_spot(
    device: &Device,
    taken: &Places,
    last: &ByType<Spot>,
    ty: NameId,
) -> Result<Option<Spot>, Memory>
    requires { (q : ℕ) (p : SpotSeen) → of_type last.now q ≡ Some p
        → NoneBefore device.now taken.now q p }
    ensures { IfOk result (IsFirstSpot device.now taken.now ty) }
{
    match last.get(ty) {
        Some(start) => first_spot(device, taken, ty, start),
        None => {
            let start = Spot {
                site: SiteId::new(0),
                bel: BelId::new(0),
            };
            first_spot(device, taken, ty, start)
        }
    }
}

/// The places of the cells by first fit.
///
/// # Errors
///
/// `NoSite` exactly where first fit stops at a cell; `Memory`.
pub(crate) fn fit(
    alloc: Global,
    device: &Device,
    cells: &Items<FlatCell>,
) -> Result<Places, FitFault>
    requires { AllSuffice device.now cells.now }
    ensures fit { IfOk result (λ places. FitFirst device.now cells.now places) }
    ensures count { IfOk result (λ places. length places ≡ length cells.now) }
    ensures err { IfErr result (IsFitFault device.now cells.now) }
{
    let mut places = Places::new(alloc);
    let mut last = ByType::new(alloc);
    for i in 0..cells.len() {
        let ty = cells.at(i).ty;
        match next_spot(device, &places, &last, ty)? {
            None => {
                return Err(FitFault::NoSite {
                    cell: number_of(i)?,
                });
            }
            Some(spot) => {
                places = places.with(&spot)?;
                last.set(ty, spot)?;
            }
        }
    }
    Ok(places)
}
