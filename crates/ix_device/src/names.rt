//! The tiles, sites and site types of a device, by name.

ghost use Rattle.std.specs.Prelude.{◌≡◌, ℕ, IfOk, nat_eq};
ghost use Rattle.std.specs.List.{position};
ghost use Rattle.ix_keys.specs.Keys.{name_key};
ghost use Rattle.ix_first.specs.First.{value_at};
ghost use Rattle.ix_device.specs.Lookups.{tile_named, site_type_number, site_named};
ghost use Rattle.ix_device.specs.Tables.{AreSites};

use crate::sites::SiteEntry;
use ix_first::{FirstByKey, number_of};
use ix_keys::Key;
use ix_num::{Memory, SiteId, SiteTypeId, TileId};
use ix_rec::{DeviceRec, Items};
use std::alloc::Global;

/// The tiles by name.
pub(crate) fn tile_numbers(alloc: Global, rec: &DeviceRec) -> Result<FirstByKey<TileId>, Memory>
    ensures { IfOk result (λ table. (name : ℕ)
        → value_at table (name_key name) ≡ tile_named rec.now name) }
{
    let mut table = FirstByKey::new(alloc);
    for i in 0..rec.tile_list.len() {
        let tile = TileId::new(number_of(i)?);
        table.put(Key::of_name(rec.tile_list.at(i).name.get()), tile)?;
    }
    Ok(table)
}

/// The site types by name.
pub(crate) fn site_type_numbers(
    alloc: Global,
    rec: &DeviceRec,
) -> Result<FirstByKey<SiteTypeId>, Memory>
    ensures { IfOk result (λ table. (name : ℕ)
        → value_at table (name_key name) ≡ site_type_number rec.now name) }
{
    let mut table = FirstByKey::new(alloc);
    for i in 0..rec.site_type_list.len() {
        let ty = SiteTypeId::new(number_of(i)?);
        table.put(Key::of_name(rec.site_type_list.at(i).name.get()), ty)?;
    }
    Ok(table)
}

/// The sites by name.
pub(crate) fn site_numbers(
    alloc: Global,
    entries: &Items<SiteEntry>,
) -> Result<FirstByKey<SiteId>, Memory>
    ensures { IfOk result (λ table. (name : ℕ)
        → value_at table (name_key name) ≡ position (λ e. nat_eq e.name name) entries.now) }
{
    let mut table = FirstByKey::new(alloc);
    for i in 0..entries.len() {
        let site = SiteId::new(number_of(i)?);
        table.put(Key::of_name(entries.at(i).name.get()), site)?;
    }
    Ok(table)
}
