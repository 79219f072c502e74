//! The entries of a placement's pin map.

ghost use Rattle.std.specs.Prelude.{◌≡◌, ◌<◌, length, nat_eq, option_map};
ghost use Rattle.std.specs.List.{list_all, list_any, All};
ghost use Rattle.ix_pin_maps.specs.Entries.{is_put as is_put_seen, is_input as is_input_seen};
ghost use Rattle.ix_pin_maps.specs.Entries.{entry_fits as entry_fits_seen, IsBel};

use crate::marks::{Mark, is_on};
use ix_device::Device;
use ix_num::{BelId, NameId, SiteTypeId};
use ix_rec::{CellPlacement, Items, LutCell, PinMapping};

/// A BEL of a site type.
#[derive(Clone, Copy)]
pub(crate) struct TypedBel {
    /// The site type.
    pub ty: SiteTypeId,
    /// The BEL.
    pub bel: BelId,
}

/// A BEL with a cell on it, and the marks of the device's pin map of the cell's type there.
#[derive(Clone, Copy)]
pub(crate) struct CellOnBel<'a> {
    /// The device.
    pub device: &'a Device,
    /// The site type.
    pub ty: SiteTypeId,
    /// The BEL.
    pub bel: BelId,
    /// The marks.
    pub marks: &'a [Mark],
    /// Those of this turn count.
    pub turn: u32,
}

// Whether an entry is one of the device's pin map.
fn is_put(on: &CellOnBel<'_>, entry: &PinMapping) -> bool
    requires bel { IsBel on.now.device.now on.now.ty on.now.bel }
    requires named { entry.now.cell_pin < length on.now.marks.now }
    ensures { result ≡ is_put_seen on.now.device.now on.now.ty on.now.bel on.now.turn
        on.now.marks.now entry.now }
{
    match on.device.bel_pin(on.ty, on.bel, entry.bel_pin) {
        Some(pin) => is_on(on.marks, on.turn, entry.cell_pin, pin),
        None => false,
    }
}

// Whether a name is one of these.
fn has_name(names: &Items<NameId>, name: NameId) -> bool
    ensures { result ≡ list_any (nat_eq name) names.now }
{
    names.as_slice().iter().any(|n| name == *n)
}

// Whether an entry is of an input of a LUT.
fn is_input(lut: Option<&LutCell>, entry: &PinMapping) -> bool
    ensures { result ≡ is_input_seen (option_map (λ l. l.now) lut.entry) entry.now }
{
    match lut {
        Some(lut) => has_name(&lut.input_pins, entry.cell_pin),
        None => false,
    }
}

// Whether an entry is of the cell's own BEL, and of an input of the LUT or of the device's pin map.
fn entry_fits(on: &CellOnBel<'_>, lut: Option<&LutCell>, own: NameId, entry: &PinMapping) -> bool
    requires bel { IsBel on.now.device.now on.now.ty on.now.bel }
    requires named { entry.now.cell_pin < length on.now.marks.now }
    ensures { result ≡ entry_fits_seen on.now.device.now on.now.ty on.now.bel on.now.turn
        on.now.marks.now (option_map (λ l. l.now) lut.entry) own entry.now }
{
    entry.bel == own && (is_input(lut, entry) || is_put(on, entry))
}

/// Whether each entry of a placement's pin map is.
pub(crate) fn all_fit(on: &CellOnBel<'_>, lut: Option<&LutCell>, placement: &CellPlacement) -> bool
    requires bel { IsBel on.now.device.now on.now.ty on.now.bel }
    requires named { All (λ e. e.cell_pin < length on.now.marks.now) placement.now.pin_map }
    ensures { result ≡ list_all (entry_fits_seen on.now.device.now on.now.ty on.now.bel on.now.turn
        on.now.marks.now (option_map (λ l. l.now) lut.entry) placement.now.bel)
        placement.now.pin_map }
{
    for i in 0..placement.pin_map.len() {
        if !entry_fits(on, lut, placement.bel, placement.pin_map.at(i)) {
            return false;
        }
    }
    true
}
