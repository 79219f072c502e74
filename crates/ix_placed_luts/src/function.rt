//! The function of a placed LUT.

ghost use Rattle.std.specs.Prelude.{◌≡◌, Some, IfSome, IfNone, ℕ};
ghost use Rattle.ix_device.specs.Elements.{lut_inputs_of};
ghost use Rattle.ix_legal.specs.declared.level.Level.{Level};
ghost use Rattle.ix_legal.specs.LutTables.{IsFunction};
ghost use Rattle.ix_legal.specs.Sharing.{IsUnshared};
ghost use Rattle.ix_legal.specs.Spots.{Everywhere};
ghost use Rattle.ix_ends.specs.Ends.{AreEnds};
ghost use Rattle.ix_holders.specs.Holders.{AreHolders};
ghost use Rattle.ix_lut_places.specs.Places.{ArePlaces};

use crate::placed::placed_lut;
use crate::ties::{HeldSite, ties_of};
use ix_device::Device;
use ix_ends::Ends;
use ix_holders::Holders;
use ix_legal::holders_are_one;
use ix_lut::{Table, function_at};
use ix_lut_places::LutPlaces;
use ix_pin_maps::places_are_one;
use ix_rec::{CellPlacement, Phys};

/// The function of a placed LUT, where the table of its BEL's element has these bits: whatever the
/// values of the inputs that it doesn't use, as long as they agree with the constants that hold
/// their wires. None exactly where it has none: where two of the bits that it reads for one value
/// of its own inputs differ, but also of a plain cell, of a BEL in no usable element, and of a pin
/// map that doesn't have each input once. It takes no memory, a hash for each input of the element,
/// and a walk over the pin map for each input of the LUT.
///
/// The tables are those of the device and of the netlist, in which no wire has two holders.
pub fn function_of(
    device: &Device,
    places: &LutPlaces,
    phys: &Phys,
    ends: &Ends,
    holders: &Holders,
    placement: &CellPlacement,
    bits: u64,
) -> Option<Table>
    requires places { ArePlaces device.now places.now }
    requires ends { AreEnds device.now phys.now ends.now }
    requires holders { AreHolders device.now phys.now ends.now holders.now }
    requires unshared { (level : Level) × Everywhere (IsUnshared level device.now phys.now) }
    ensures function { IfSome result (λ table.
        IsFunction device.now phys.now placement.now bits table.bits) }
    ensures inputs { IfSome result (λ table.
        lut_inputs_of device.now placement.now.ty ≡ Some table.inputs) }
    ensures none { IfNone result ((function : ℕ)
        → IsFunction device.now phys.now placement.now bits function → ⊥) }
{
    places_are_one();
    let at = placed_lut(device, places, placement)?;
    let on = HeldSite {
        device,
        phys,
        ends,
        holders,
        site: at.site,
        ty: at.ty,
    };
    holders_are_one();
    let ties = ties_of(&on, at.bel, at.lut_bel, &at.shape.bels[at.place as usize]);
    function_at(&at.shape, bits, at.place, at.inputs.as_slice(), &ties)
}
