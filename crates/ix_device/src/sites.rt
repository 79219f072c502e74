//! The sites of a device, by number.

ghost use Rattle.std.specs.Prelude.{◌≡◌, ◌<◌, ◌+◌, ◌++◌, length, map, slice_get, Some, IfOk, OnOk};
ghost use Rattle.std.specs.List.{AllByRecursion};
ghost use Rattle.ix_rec.specs.Ranges.{IndexesFit};
ghost use Rattle.ix_device.specs.Tables.{entry_told, told_in, AreSites};

use ix_first::number_of;
use ix_num::{Memory, NameId, SiteTypeId, TileId};
use ix_rec::{DeviceRec, Items, Site, TileType};
use std::alloc::Global;
use std::mem::size_of;

/// What is told of a site.
#[derive(Clone, Copy)]
pub(crate) struct SiteEntry {
    /// Its name.
    pub name: NameId,
    /// Its tile.
    pub tile: TileId,
    /// Its type.
    pub ty: SiteTypeId,
    /// Its place in the list of site types of its tile's type.
    pub place: u32,
}

// A device may have millions of them.
const _: () = prove!(size_of::<SiteEntry>() <= 16);

// The sites of a tile of this type, after those that are there.
fn add_sites(
    entries: &mut Items<SiteEntry>,
    tile: TileId,
    ty: &TileType,
    sites: &Items<Site>,
) -> Result<(), Memory>
    requires { AllByRecursion (λ s. s.ty < length ty.now.site_types) sites.now }
    ensures { OnOk result (map entry_told entries.new
        ≡ map entry_told entries.old ++ map (told_in tile ty.now) sites.now) }
{
    for i in 0..sites.len() {
        let site = sites.at(i);
        let ty = ty.site_types.at(site.ty as usize).primary_type;
        entries.push(SiteEntry {
            name: site.name,
            tile,
            ty,
            place: site.ty,
        })?;
    }
    Ok(())
}

/// The sites of a device, by number.
pub(crate) fn site_entries(alloc: Global, rec: &DeviceRec) -> Result<Items<SiteEntry>, Memory>
    requires { IndexesFit rec.now }
    ensures { IfOk result (AreSites rec.now) }
{
    let mut entries = Items::new(alloc);
    for i in 0..rec.tile_list.len() {
        let tile = rec.tile_list.at(i);
        let ty = rec.tile_type_list.at(tile.ty as usize);
        let number = number_of(i)?;
        add_sites(&mut entries, TileId::new(number), ty, &tile.sites)?;
    }
    Ok(entries)
}
