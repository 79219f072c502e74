//! M3: a BEL pin is once in site wires.

ghost use Rattle.std.specs.Prelude.{◌≡◌, ◌∷◌, ◌++◌, map, OnOk};
ghost use Rattle.std.specs.List.{flat_map};
ghost use Rattle.ix_message.specs.Indexes.{begun};
ghost use Rattle.ix_keys.specs.Keys.{name_key};
ghost use Rattle.ix_device_rules.specs.Named.{pin_is_new};
ghost use Rattle.ix_device_rules.specs.Rules.{each_by_earlier, pins_of_site_wires};
ghost use Rattle.ix_device_rules.specs.Rules.{pins_are_on_one_wire as all_pins_are_on_one_wire};
ghost use Rattle.ix_device_rules.specs.Tables.{SameKeys};
ghost use Rattle.ix_device_rules.specs.Walks.{Walks};

use crate::kinds::{Field, Kind};
use crate::stop::Stop;
use crate::walk::Walk;
use ix_keys::{Key, Keys};
use ix_num::BelPinId;
use ix_rec::{DeviceRec, Items, SiteType, SiteWire};

/// The key of a BEL pin.
fn pin_key(pin: BelPinId) -> Key
    ensures { result ≡ name_key pin }
{
    Key::of_name(pin.get())
}

/// These pins are new in the table, to which they are added.
fn pins_are_new(pins: &Items<BelPinId>, seen: &mut Keys, walk: &mut Walk) -> Result<(), Stop>
    ensures walks { Walks (each_by_earlier (pin_is_new seen.old) pins.now) walk.old result
        walk.new }
    ensures seen { OnOk result (SameKeys seen.new (seen.old ++ map (λ p. name_key p) pins.now)) }
{
    for i in 0..pins.len() {
        let key = pin_key(*pins.at(i));
        match walk.ask_new(Kind::SiteWire, Field::Pins, seen, key) {
            Ok(()) => {}
            Err(stop) => return Err(stop),
        }
    }
    Ok(())
}

/// The same of the pins of a site wire.
fn wire_is_new(wire: &SiteWire, seen: &mut Keys, walk: &mut Walk) -> Result<(), Stop>
    ensures walks { Walks (begun "SiteWire" ∷ each_by_earlier (pin_is_new seen.old) wire.now.pins)
        walk.old result walk.new }
    ensures seen { OnOk result (SameKeys seen.new
        (seen.old ++ map (λ p. name_key p) wire.now.pins)) }
{
    match walk.begin(Kind::SiteWire) {
        Ok(()) => pins_are_new(&wire.pins, seen, walk),
        Err(stop) => Err(stop),
    }
}

/// The pins of a site type are once in its wires.
fn site_type_fits(site_type: &SiteType, walk: &mut Walk) -> Result<(), Stop>
    ensures { Walks (pins_of_site_wires site_type.now) walk.old result walk.new }
{
    let mut seen = Keys::new(walk.alloc());
    for i in 0..site_type.site_wires.len() {
        match wire_is_new(site_type.site_wires.at(i), &mut seen, walk) {
            Ok(()) => {}
            Err(stop) => return Err(stop),
        }
    }
    Ok(())
}

/// A BEL pin is once in the wires of its site type.
pub fn pins_are_on_one_wire(rec: &DeviceRec, walk: &mut Walk) -> Result<(), Stop>
    ensures { Walks (all_pins_are_on_one_wire rec.now) walk.old result walk.new }
{
    let types = &rec.site_type_list;
    for i in 0..types.len() {
        match site_type_fits(types.at(i), walk) {
            Ok(()) => {}
            Err(stop) => return Err(stop),
        }
    }
    Ok(())
}
