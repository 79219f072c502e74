//! M5: LUT elements by their site types.

ghost use Rattle.std.specs.Prelude.{◌≡◌, ◌++◌, [], map, position, OnOk};
ghost use Rattle.ix_keys.specs.Keys.{name_key, key_eq};
ghost use Rattle.ix_device_rules.specs.Luts.{entry_by, seen_by};
ghost use Rattle.ix_device_rules.specs.Named.{site_type_key};
ghost use Rattle.ix_device_rules.specs.Rules.{lut_elements_stand as all_lut_elements_stand};
ghost use Rattle.ix_device_rules.specs.Tables.{SameKeys, EachKnown, KnowsBels, KnowsPins};
ghost use Rattle.ix_device_rules.specs.Walks.{Walks};

use crate::lut_elements::{SiteTypeParts, elements_stand, pass_elements};
use crate::named::key_of;
use crate::stop::Stop;
use crate::walk::Walk;
use ix_keys::Keys;
use ix_rec::{DeviceRec, SiteTypeLutElements};

/// The elements of an entry, whose BELs are then in the table. Those of a site type that isn't
/// there are passed over.
fn entry_stands(
    site_types: &Keys,
    bels: &Keys,
    pins: &Keys,
    entry: &SiteTypeLutElements,
    seen: &mut Keys,
    walk: &mut Walk,
) -> Result<(), Stop>
    ensures walks { Walks (entry_by bels.now pins.now
        (position (key_eq (name_key entry.now.site)) site_types.now) seen.old entry.now) walk.old
        result walk.new }
    ensures seen { OnOk result (SameKeys seen.new
        (seen.old ++ seen_by (position (key_eq (name_key entry.now.site)) site_types.now)
        entry.now)) }
{
    match site_types.find(key_of(entry.site)) {
        Some(number) => {
            let parts = SiteTypeParts {
                number,
                name: entry.site,
                bels,
                pins,
            };
            elements_stand(&parts, &entry.luts, seen, walk)
        }
        None => pass_elements(&entry.luts, walk),
    }
}

/// LUT elements are within their bounds, and their BELs and pins are there.
pub fn lut_elements_stand(
    rec: &DeviceRec,
    site_types: &Keys,
    bels: &Keys,
    pins: &Keys,
    walk: &mut Walk,
) -> Result<(), Stop>
    requires site_types { site_types.now ≡ map site_type_key rec.now.site_type_list }
    requires bels { EachKnown KnowsBels bels.now rec.now.site_type_list }
    requires pins { EachKnown KnowsPins pins.now rec.now.site_type_list }
    ensures { Walks (all_lut_elements_stand rec.now) walk.old result walk.new }
{
    let entries = &rec.lut_definitions.lut_elements;
    let mut seen = Keys::new(walk.alloc());
    for i in 0..entries.len() {
        match entry_stands(site_types, bels, pins, entries.at(i), &mut seen, walk) {
            Ok(()) => {}
            Err(stop) => return Err(stop),
        }
    }
    Ok(())
}
