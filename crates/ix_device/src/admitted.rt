//! The pin map by which a BEL admits a cell type.

ghost use Rattle.std.specs.Prelude.{◌≡◌, ◌<◌, Some, None, length, slice_get, option_map, unwrap_or};
ghost use Rattle.std.specs.Prelude.{IfSome, IsSome};
ghost use Rattle.ix_keys.specs.Keys.{name_key};
ghost use Rattle.ix_first.specs.First.{value_at, value_of};
ghost use Rattle.ix_device.specs.Admission.{first_map, fits_bel, is_logic, has_inputs, pins_in};
ghost use Rattle.ix_device.specs.AllTables.{AreTables};
ghost use Rattle.ix_device.specs.PinsListed.{pins_listed};
ghost use Rattle.ix_device.specs.TypeTables.{AreTypeTables};
ghost use Rattle.ix_device.specs.Listed.{AreListings};

use crate::admissions::Listing;
use crate::pins::PinList;
use crate::tables::Tables;
use crate::types::TypeTables;
use ix_first::{FirstById, FirstByKey};
use ix_keys::Key;
use ix_num::{BelId, NameId, SiteTypeId};
use ix_rec::{Category, CommonCellBelPinMaps, DeviceRec, SiteType};

/// The first pin map of a cell type that lists the BEL of this name, and whether it fits the BEL.
pub(crate) fn first_map<'a>(
    rec: &'a DeviceRec,
    listings: &FirstByKey<Listing>,
    cell: NameId,
    owner: SiteTypeId,
    t: &SiteType,
    bel: NameId,
) -> Option<(&'a CommonCellBelPinMaps, bool)>
    requires listed { AreListings rec.now.site_type_list listings.now rec.now.cell_bel_map }
    requires owner { slice_get rec.now.site_type_list owner ≡ Some t.now }
    ensures first { option_map (λ x. x.0.now) result ≡ first_map rec.now cell t.now bel }
    ensures fits { IfSome result (λ x. x.1 ≡ fits_bel t.now bel x.0.now.pins) }
{
    match listings.get(Key::new(owner.get(), bel.get(), cell.get())) {
        None => None,
        Some(listing) => {
            let mapping = rec.cell_bel_map.at(listing.mapping as usize);
            let map = mapping.common_pins.at(listing.pin_map as usize);
            Some((map, listing.fits))
        }
    }
}

fn is_logic(category: Category) -> bool
    ensures { result ≡ is_logic category }
{
    match category {
        Category::Logic => true,
        Category::Routing | Category::SitePort => false,
    }
}

// Whether a BEL has inputs enough in a usable LUT element, where the cell type is a LUT type.
fn takes_lut(lut_types: &FirstByKey<u32>, inputs: &FirstById<u32>, cell: NameId, bel: BelId) -> bool
    requires { IsSome (value_of inputs.now bel) }
    ensures { result ≡ has_inputs (value_at lut_types.now (name_key cell))
        (unwrap_or (value_of inputs.now bel) None) }
{
    match lut_types.get(Key::of_name(cell.get())) {
        None => true,
        Some(wanted) => match inputs.get(bel.get() as usize) {
            None => false,
            Some(inputs) => wanted <= inputs,
        },
    }
}

/// The pins by which the BEL of this number of a site type admits the cell type; none exactly where
/// it doesn't.
pub(crate) fn pins_of<'a>(
    rec: &'a DeviceRec,
    tables: &'a Tables,
    cell: NameId,
    owner: SiteTypeId,
    t: &SiteType,
    parts: &'a TypeTables,
    bel: BelId,
) -> Option<PinList<'a>>
    requires tables { AreTables rec.now tables.now }
    requires owner { slice_get rec.now.site_type_list owner ≡ Some t.now }
    requires parts { AreTypeTables rec.now t.now parts.now }
    requires bel { bel < length t.now.bels }
    ensures { option_map pins_listed result ≡ pins_in rec.now cell bel t.now }
{
    let b = t.bels.at(bel.get() as usize);
    if !is_logic(b.category) {
        return None;
    }
    match first_map(rec, &tables.listings, cell, owner, t, b.name) {
        None => None,
        Some((map, fits)) => {
            if !fits {
                return None;
            }
            if !takes_lut(&tables.lut_types, &parts.inputs, cell, bel) {
                return None;
            }
            Some(PinList {
                pins: &map.pins,
                bel: b.name,
                bel_pins: &parts.bel_pins,
            })
        }
    }
}
