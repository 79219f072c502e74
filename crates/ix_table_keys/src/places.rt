//! Places of things in a list, by their names.

ghost use Rattle.std.specs.Prelude.{◌≡◌, ◌<◌, ◌^◌, length, IfOk};
ghost use Rattle.ix_table_keys.specs.Places.{ArePlacesByName, site_of, key_of};

use ix_first::FirstById;
use ix_num::Memory;
use ix_rec::{Items, Property, SiteInstance};
use std::alloc::Global;

/// The place of the first thing of each name, by the name's number.
pub type PlacesByName = FirstById<u32>;

/// The place of the first instance of each site, among so many names. `Memory` is the only error.
/// It takes 8 bytes a name.
pub fn instances_by_name(
    alloc: Global,
    instances: &Items<SiteInstance>,
    names: u32,
) -> Result<PlacesByName, Memory>
    requires few { length instances.now < 2 ^ 32 }
    ensures { IfOk result (ArePlacesByName site_of instances.now names) }
{
    let mut places = PlacesByName::new(alloc, names as usize)?;
    for i in 0..instances.len() {
        places.put(instances.at(i).site.get() as usize, i as u32);
    }
    Ok(places)
}

/// The place of the first property of each key, among so many names. `Memory` is the only error.
/// It takes 8 bytes a name.
pub(crate) fn properties_by_key(
    alloc: Global,
    properties: &Items<Property>,
    names: u32,
) -> Result<PlacesByName, Memory>
    requires few { length properties.now < 2 ^ 32 }
    ensures { IfOk result (ArePlacesByName key_of properties.now names) }
{
    let mut places = PlacesByName::new(alloc, names as usize)?;
    for i in 0..properties.len() {
        places.put(properties.at(i).key.get() as usize, i as u32);
    }
    Ok(places)
}
