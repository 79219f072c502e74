//! The LUT elements of site types: which BEL is where.

ghost use Rattle.std.specs.Prelude.{◌≡◌, ◌<◌, ◌+◌, ℕ, None, length, take, slice_get, Some};
ghost use Rattle.std.specs.Prelude.{option_map, nat_eq, if◌then◌else◌, IfOk, OnOk};
ghost use Rattle.std.specs.Option.{option_or};
ghost use Rattle.std.specs.List.{position};
ghost use Rattle.ix_rec.specs.declared.device.SiteTypeLutElements.{SiteTypeLutElements as EntrySeen};
ghost use Rattle.ix_keys.specs.Keys.{key};
ghost use Rattle.ix_first.specs.First.{value_at, value_of};
ghost use Rattle.ix_device_rules.specs.Rules.{elements_for};
ghost use Rattle.ix_device.specs.Places.{ArePlaces, place_told, place_of_bel as place_told_of};

use crate::counts::Counts;
use crate::filling::put_found;
use ix_first::{FirstById, FirstByKey, number_of};
use ix_keys::Key;
use ix_num::{Memory, NameId};
use ix_rec::{Items, LutBel, SiteType, SiteTypeLutElements};
use std::alloc::Global;

/// The place of a BEL in a LUT element.
#[derive(Clone, Copy)]
pub(crate) struct ElementPlace {
    /// The element's number among those of its site type.
    pub element: u32,
    /// The BEL's place in the element.
    pub place: u32,
    /// The entry of the device that has the element.
    pub entry: u32,
    /// The element's place in the entry.
    pub lut: u32,
}

// Puts the BELs of an element, by their names and that of their site type. The first of a name
// counts.
fn put_bels(
    table: &mut FirstByKey<ElementPlace>,
    site: NameId,
    at: ElementPlace,
    bels: &Items<LutBel>,
) -> Result<(), Memory>
    ensures { OnOk result ((ty bel : ℕ) → value_at table.new (key ty 0 bel)
        ≡ option_or (value_at table.old (key ty 0 bel)) (if nat_eq site ty
        then option_map (λ j. record at { place = j }) (position (λ b. nat_eq b.name bel) bels.now)
        else None)) }
{
    for j in 0..bels.len() {
        let place = ElementPlace {
            element: at.element,
            place: number_of(j)?,
            entry: at.entry,
            lut: at.lut,
        };
        let key = Key::new(site.get(), 0, bels.at(j).name.get());
        table.put(key, place)?;
    }
    Ok(())
}

/// The sum of two numbers. Want of memory is answered past 2^32 - 1.
pub(crate) fn sum_of(a: u32, b: u32) -> Result<u32, Memory>
    ensures { IfOk result (λ n. n ≡ a + b) }
{
    if b > u32::MAX - a {
        return Err(Memory);
    }
    Ok(a + b)
}

// Puts the elements of the entry of this number, numbered from `first` on.
fn put_entry(
    table: &mut FirstByKey<ElementPlace>,
    entries: &Items<SiteTypeLutElements>,
    i: usize,
    first: u32,
) -> Result<(), Memory>
    requires within { i < length entries.now }
    requires first { (e : EntrySeen) → slice_get entries.now i ≡ Some e
        → first ≡ length (elements_for e.site (take i entries.now)) }
    requires before { ArePlaces entries.now (λ ty. elements_for ty (take i entries.now)) table.old }
    ensures { OnOk result (ArePlaces entries.now (λ ty. elements_for ty (take (i + 1) entries.now))
        table.new) }
{
    let entry = entries.at(i);
    let number = number_of(i)?;
    for k in 0..entry.luts.len() {
        let lut = number_of(k)?;
        let at = ElementPlace {
            element: sum_of(first, lut)?,
            place: 0,
            entry: number,
            lut,
        };
        put_bels(table, entry.site, at, &entry.luts.at(k).bels)?;
    }
    Ok(())
}

/// The places of the BELs of LUT elements, by the names of site type and BEL.
pub(crate) fn element_places(
    alloc: Global,
    entries: &Items<SiteTypeLutElements>,
) -> Result<FirstByKey<ElementPlace>, Memory>
    ensures { IfOk result (ArePlaces entries.now (λ ty. elements_for ty entries.now)) }
{
    let mut table = FirstByKey::new(alloc);
    let mut counts = Counts::new(alloc);
    for i in 0..entries.len() {
        let entry = entries.at(i);
        let first = counts.get(entry.site);
        put_entry(&mut table, entries, i, first)?;
        let next = sum_of(first, number_of(entry.luts.len())?)?;
        counts.set(entry.site, next)?;
    }
    Ok(table)
}

/// The place of the BEL of this number of a site type; none where no element has it.
pub(crate) fn place_of_bel(
    places: &FirstByKey<ElementPlace>,
    ty: &SiteType,
    bel: usize,
) -> Option<ElementPlace>
    requires { bel < length ty.now.bels }
    ensures { result ≡ place_told_of places.now ty.now bel }
{
    places.get(Key::new(ty.name.get(), 0, ty.bels.at(bel).name.get()))
}

// An element's number and a place in it.
fn shown(place: Option<ElementPlace>) -> Option<(u32, u32)>
    ensures { result ≡ option_map place_told place }
{
    match place {
        Some(place) => Some((place.element, place.place)),
        None => None,
    }
}

/// The place of each BEL of a site type: its element's number, and its place in it.
pub(crate) fn elements_of_bels(
    alloc: Global,
    ty: &SiteType,
    places: &FirstByKey<ElementPlace>,
) -> Result<FirstById<(u32, u32)>, Memory>
    ensures { IfOk result (λ elements. (bel : ℕ) → bel < length ty.now.bels
        → value_of elements bel ≡ Some (option_map place_told
        (place_told_of places.now ty.now bel))) }
{
    let mut elements = FirstById::new(alloc, ty.bels.len())?;
    for bel in 0..ty.bels.len() {
        put_found(&mut elements, bel, shown(place_of_bel(places, ty, bel)));
    }
    Ok(elements)
}
