//! M5: LUT elements.

ghost use Rattle.std.specs.Prelude.{◌≡◌, ◌+◌, ◌^◌, nat_eq, ◌++◌, map, OnOk};
ghost use Rattle.std.specs.List.{flat_map};
ghost use Rattle.ix_keys.specs.Keys.{key};
ghost use Rattle.ix_device_rules.specs.Luts.{parts_of, has_bel_by, has_pin_by, input_by};
ghost use Rattle.ix_device_rules.specs.Luts.{lut_bel_by, element_by, element_keys, element_after};
ghost use Rattle.ix_device_rules.specs.Luts.{passed_bel};
ghost use Rattle.ix_device_rules.specs.Rules.{each_by_earlier, bits_fit as bits_of_bel_fit};
ghost use Rattle.ix_device_rules.specs.Rules.{element_passed};
ghost use Rattle.ix_device_rules.specs.Tables.{SameKeys};
ghost use Rattle.ix_device_rules.specs.Walks.{Walks};

use crate::kinds::{Field, Kind};
use crate::stop::Stop;
use crate::walk::Walk;
use ix_keys::{Key, Keys};
use ix_num::{Memory, NameId};
use ix_rec::{Items, LutBel, LutElement};

/// The greatest width of a LUT element.
const MOST_WIDTH: u32 = 64;

/// The parts of a site type, by the tables of those of all.
#[derive(Drop)]
pub struct SiteTypeParts<'t> {
    /// The site type's number.
    pub number: u32,
    /// Its name.
    pub name: NameId,
    /// The BELs of all site types.
    pub bels: &'t Keys,
    /// Their BEL pins.
    pub pins: &'t Keys,
}

impl<'t> SiteTypeParts<'t> {
    /// Whether the site type has the BEL.
    fn has_bel(&self, bel: NameId) -> bool
        ensures { result ≡ has_bel_by (parts_of self.now) bel }
    {
        self.bels.has(Key::new(self.number, 0, bel.get()))
    }

    /// Whether the BEL has the pin.
    fn has_pin(&self, bel: NameId, pin: NameId) -> bool
        ensures { result ≡ has_pin_by (parts_of self.now) bel pin }
    {
        self.pins.has(Key::new(self.number, bel.get(), pin.get()))
    }

    /// The key of a BEL of an element of the site type.
    fn element_key(&self, bel: NameId) -> Key
        ensures { result ≡ key self.now.name 0 bel }
    {
        Key::new(self.name.get(), 0, bel.get())
    }
}

/// Whether the number after this one is 2 to the exponent.
fn is_before_power(last: u32, exponent: usize) -> bool
    ensures { result ≡ nat_eq (last + 1) (2 ^ exponent) }
{
    if exponent > 32 {
        return false;
    }
    u64::from(last) + 1 == 1u64 << exponent
}

/// Whether the bits that the BEL reads are bits of its element, one for each value of its inputs.
fn bits_fit(width: u32, bel: &LutBel) -> bool
    ensures { result ≡ bits_of_bel_fit width bel.now }
{
    if bel.low_bit > bel.high_bit {
        return false;
    }
    if bel.high_bit >= width {
        return false;
    }
    is_before_power(bel.high_bit - bel.low_bit, bel.input_pins.len())
}

/// The inputs are pins of the BEL.
fn inputs_stand(
    parts: &SiteTypeParts<'_>,
    bel: NameId,
    pins: &Items<NameId>,
    walk: &mut Walk,
) -> Result<(), Stop>
    ensures { Walks (flat_map (input_by (parts_of parts.now) bel) pins.now) walk.old result
        walk.new }
{
    for i in 0..pins.len() {
        let there = parts.has_pin(bel, *pins.at(i));
        match walk.ask(Kind::LutBel, Field::InputPins, there) {
            Ok(()) => {}
            Err(stop) => return Err(stop),
        }
    }
    Ok(())
}

/// A BEL of an element of this width, where the table has the BELs of earlier elements.
fn lut_bel_stands(
    parts: &SiteTypeParts<'_>,
    seen: &Keys,
    width: u32,
    bel: &LutBel,
    walk: &mut Walk,
) -> Result<(), Stop>
    ensures { Walks (lut_bel_by (parts_of parts.now) seen.now width bel.now) walk.old result
        walk.new }
{
    match walk.enter(Kind::LutBel, Field::HighBit, bits_fit(width, bel)) {
        Ok(()) => {}
        Err(stop) => return Err(stop),
    }
    let is_seen = seen.has(parts.element_key(bel.name));
    match walk.ask(
        Kind::LutBel,
        Field::Name,
        parts.has_bel(bel.name) & !is_seen,
    ) {
        Ok(()) => {}
        Err(stop) => return Err(stop),
    }
    match inputs_stand(parts, bel.name, &bel.input_pins, walk) {
        Ok(()) => {}
        Err(stop) => return Err(stop),
    }
    let there = parts.has_pin(bel.name, bel.output_pin);
    walk.ask(Kind::LutBel, Field::OutputPin, there)
}

/// The BELs of an element.
fn lut_bels_stand(
    parts: &SiteTypeParts<'_>,
    seen: &Keys,
    element: &LutElement,
    walk: &mut Walk,
) -> Result<(), Stop>
    ensures { Walks (flat_map (lut_bel_by (parts_of parts.now) seen.now element.now.width)
        element.now.bels) walk.old result walk.new }
{
    for i in 0..element.bels.len() {
        match lut_bel_stands(parts, seen, element.width, element.bels.at(i), walk) {
            Ok(()) => {}
            Err(stop) => return Err(stop),
        }
    }
    Ok(())
}

/// Adds the BELs of an element to the table.
fn see_bels(parts: &SiteTypeParts<'_>, element: &LutElement, seen: &mut Keys) -> Result<(), Memory>
    ensures { OnOk result (SameKeys seen.new
        (seen.old ++ element_keys parts.now.name element.now)) }
{
    for i in 0..element.bels.len() {
        let key = parts.element_key(element.bels.at(i).name);
        match seen.add(key) {
            Ok(_) => {}
            Err(memory) => return Err(memory),
        }
    }
    Ok(())
}

/// An element, whose BELs are then in the table.
fn element_stands(
    parts: &SiteTypeParts<'_>,
    element: &LutElement,
    seen: &mut Keys,
    walk: &mut Walk,
) -> Result<(), Stop>
    ensures walks { Walks (element_by (parts_of parts.now) seen.old element.now) walk.old result
        walk.new }
    ensures seen { OnOk result (SameKeys seen.new
        (seen.old ++ element_keys parts.now.name element.now)) }
{
    let fits = (0 < element.width) & (element.width <= MOST_WIDTH);
    match walk.enter(Kind::LutElement, Field::Width, fits) {
        Ok(()) => {}
        Err(stop) => return Err(stop),
    }
    match lut_bels_stand(parts, seen, element, walk) {
        Ok(()) => {}
        Err(stop) => return Err(stop),
    }
    match see_bels(parts, element, seen) {
        Ok(()) => Ok(()),
        Err(_) => Err(Stop::Memory),
    }
}

/// The elements of a site type, whose BELs are then in the table.
pub fn elements_stand(
    parts: &SiteTypeParts<'_>,
    elements: &Items<LutElement>,
    seen: &mut Keys,
    walk: &mut Walk,
) -> Result<(), Stop>
    ensures walks { Walks (each_by_earlier (element_after (parts_of parts.now) seen.old)
        elements.now) walk.old result walk.new }
    ensures seen { OnOk result (SameKeys seen.new
        (seen.old ++ flat_map (element_keys parts.now.name) elements.now)) }
{
    for i in 0..elements.len() {
        match element_stands(parts, elements.at(i), seen, walk) {
            Ok(()) => {}
            Err(stop) => return Err(stop),
        }
    }
    Ok(())
}

/// Passes over the BELs of an element without effect.
fn pass_bels(element: &LutElement, walk: &mut Walk) -> Result<(), Stop>
    ensures { Walks (flat_map passed_bel element.now.bels) walk.old result walk.new }
{
    for _ in 0..element.bels.len() {
        match walk.begin(Kind::LutBel) {
            Ok(()) => {}
            Err(stop) => return Err(stop),
        }
    }
    Ok(())
}

/// Passes over an element without effect.
fn pass_element(element: &LutElement, walk: &mut Walk) -> Result<(), Stop>
    ensures { Walks (element_passed element.now) walk.old result walk.new }
{
    match walk.begin(Kind::LutElement) {
        Ok(()) => pass_bels(element, walk),
        Err(stop) => Err(stop),
    }
}

/// Passes over elements without effect.
pub fn pass_elements(elements: &Items<LutElement>, walk: &mut Walk) -> Result<(), Stop>
    ensures { Walks (flat_map element_passed elements.now) walk.old result walk.new }
{
    for i in 0..elements.len() {
        match pass_element(elements.at(i), walk) {
            Ok(()) => {}
            Err(stop) => return Err(stop),
        }
    }
    Ok(())
}
