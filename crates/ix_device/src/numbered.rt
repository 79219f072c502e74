//! The LUT elements of site types, by number.

ghost use Rattle.std.specs.Prelude.{◌≡◌, ◌<◌, ◌+◌, Some, length, option_map, slice_get, take, IfOk};
ghost use Rattle.std.specs.Prelude.{OnOk};
ghost use Rattle.ix_rec.specs.declared.device.SiteTypeLutElements.{SiteTypeLutElements as EntrySeen};
ghost use Rattle.ix_device_rules.specs.Rules.{elements_for};
ghost use Rattle.ix_device.specs.Numbered.{HasElements, AreNumbered};

use crate::counts::Counts;
use crate::element_places::sum_of;
use ix_first::{FirstByKey, number_of};
use ix_keys::Key;
use ix_num::{Memory, NameId};
use ix_rec::{Items, LutElement, SiteTypeLutElements};
use std::alloc::Global;

/// Where a LUT element stands.
#[derive(Clone, Copy)]
pub(crate) struct LutPlace {
    /// The entry of the device that has the element.
    pub entry: u32,
    /// The element's place in the entry.
    pub lut: u32,
}

/// The LUT elements of site types.
#[derive(Drop)]
pub(crate) struct NumberedElements {
    /// The places of the elements, by the name of the site type and the element's number.
    pub places: FirstByKey<LutPlace>,
    /// How many elements a site type has, by its name.
    pub counts: Counts,
}

// Puts the elements of the entry of this number, numbered from `first` on.
fn put_entry(
    table: &mut FirstByKey<LutPlace>,
    entries: &Items<SiteTypeLutElements>,
    i: usize,
    first: u32,
) -> Result<(), Memory>
    requires within { i < length entries.now }
    requires first { (e : EntrySeen) → slice_get entries.now i ≡ Some e →
        first ≡ length (elements_for e.site (take i entries.now)) }
    requires before { HasElements entries.now (λ ty. elements_for ty (take i entries.now))
        table.old }
    ensures { OnOk result
        (HasElements entries.now (λ ty. elements_for ty (take (i + 1) entries.now)) table.new) }
{
    let entry = entries.at(i);
    let number = number_of(i)?;
    for k in 0..entry.luts.len() {
        let lut = number_of(k)?;
        let key = Key::new(entry.site.get(), sum_of(first, lut)?, 0);
        table.put(key, LutPlace { entry: number, lut })?;
    }
    Ok(())
}

/// The elements of these entries, numbered within their site type over all entries that name it.
pub(crate) fn numbered_elements(
    alloc: Global,
    entries: &Items<SiteTypeLutElements>,
) -> Result<NumberedElements, Memory>
    ensures { IfOk result (AreNumbered entries.now) }
{
    let mut places = FirstByKey::new(alloc);
    let mut counts = Counts::new(alloc);
    for i in 0..entries.len() {
        let entry = entries.at(i);
        let first = counts.get(entry.site);
        put_entry(&mut places, entries, i, first)?;
        let next = sum_of(first, number_of(entry.luts.len())?)?;
        counts.set(entry.site, next)?;
    }
    Ok(NumberedElements { places, counts })
}

/// The element of this number of the site type of this name; none exactly where it has none.
pub(crate) fn element_numbered<'a>(
    entries: &'a Items<SiteTypeLutElements>,
    elements: &NumberedElements,
    ty: NameId,
    number: u32,
) -> Option<&'a LutElement>
    requires { AreNumbered entries.now elements.now }
    ensures { option_map (λ e. e.now) result ≡ slice_get (elements_for ty entries.now) number }
{
    match elements.places.get(Key::new(ty.get(), number, 0)) {
        None => None,
        Some(place) => Some(entries.at(place.entry as usize).luts.at(place.lut as usize)),
    }
}
