//! The pin maps of placements.

ghost use Rattle.std.specs.Prelude.{◌≡◌, ◌<◌, length, nat_eq, option_map, IfSome};
ghost use Rattle.std.specs.List.{find, list_any};
ghost use Rattle.ix_extract.specs.Extracted.{is_lut_input as is_lut_input_seen, pin_by_placement};
ghost use Rattle.ix_extract.specs.Taken.{IsBelPinOf};
ghost use Rattle.ix_legal.specs.Sites.{type_at};

use ix_device::Device;
use ix_num::{BelPinId, NameId, SiteTypeId};
use ix_rec::{CellPlacement, Items, LutCell, PinMapping};

// Whether a name is one of these.
fn has_name(names: &Items<NameId>, name: NameId) -> bool
    ensures { result ≡ list_any (nat_eq name) names.now }
{
    names.as_slice().iter().any(|n| name == *n)
}

/// Whether a pin is an input of a LUT. A plain cell has none.
pub(crate) fn is_lut_input(lut: Option<&LutCell>, pin: NameId) -> bool
    ensures { result ≡ is_lut_input_seen (option_map (λ l. l.now) lut.entry) pin }
{
    match lut {
        Some(lut) => has_name(&lut.input_pins, pin),
        None => false,
    }
}

// The first entry of a cell's pin in the pin map of its placement.
fn entry_of<'a>(placement: &'a CellPlacement, pin: NameId) -> Option<&'a PinMapping>
    ensures { option_map (λ e. e.now) result
        ≡ find (λ e. nat_eq e.cell_pin pin) placement.now.pin_map }
{
    placement
        .pin_map
        .as_slice()
        .iter()
        .find(|e| e.cell_pin == pin)
}

/// The BEL pin of a cell's pin by the pin map of its placement, on a site of this type; none
/// exactly where it has none.
pub(crate) fn mapped_pin(
    device: &Device,
    ty: SiteTypeId,
    placement: &CellPlacement,
    pin: NameId,
) -> Option<BelPinId>
    requires ty { type_at device.now placement.now.site ≡ Some ty }
    requires inside { ty < length device.now.site_type_list }
    ensures pin { result ≡ pin_by_placement device.now placement.now pin }
    ensures inside { IfSome result (IsBelPinOf device.now ty) }
{
    let entry = entry_of(placement, pin)?;
    let bel = device.bel(ty, entry.bel)?;
    device.bel_pin(ty, bel, entry.bel_pin)
}
