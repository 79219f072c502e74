//! Properties by their keys, and the package that a design names.

ghost use Rattle.std.specs.Prelude.{◌≡◌, ℕ, string_bytes, IfOk, option_and_then, option_map};
ghost use Rattle.std.specs.Prelude.{unwrap_or, nat_eq, [], None, Some};
ghost use Rattle.std.specs.List.{find, position};
ghost use Rattle.ix_keys.specs.Keys.{name_key};
ghost use Rattle.ix_first.specs.First.{value_at};
ghost use Rattle.ix_strings.specs.Names.{number_of as number_of_seen};
ghost use Rattle.ix_belmap.specs.Pins.{value_of_key, pin_key, pins_by};
ghost use Rattle.ix_belmap.specs.Pins.{package_pins as package_pins_seen};

use ix_device::Device;
use ix_first::{FirstByKey, number_of};
use ix_keys::Key;
use ix_num::{Memory, NameId};
use ix_rec::{Entry, Items, NetlistRec, Package, PackagePin, PortKind, PropertyValue};
use ix_strings::Names;
use std::alloc::Global;

/// The first value of each key.
pub(crate) fn values_by_key(
    alloc: Global,
    properties: &Items<Entry>,
) -> Result<FirstByKey<PropertyValue>, Memory>
    ensures { IfOk result (λ values. (key : ℕ)
        → value_at values (name_key key) ≡ value_of_key properties.now key) }
{
    let mut values = FirstByKey::new(alloc);
    for i in 0..properties.len() {
        let entry = properties.at(i);
        values.put(Key::of_name(entry.key.get()), entry.value)?;
    }
    Ok(values)
}

/// The value under the key with this text.
pub(crate) fn property(
    values: &FirstByKey<PropertyValue>,
    names: &Names,
    key: &str,
) -> Option<PropertyValue>
    ensures { result ≡ option_and_then (λ k. value_at values.now (name_key k))
        (number_of_seen names.now key.now) }
{
    match names.find(key) {
        Some(key) => values.get(Key::of_name(key.get())),
        None => None,
    }
}

/// The key of the property that fixes a bit of a port, by its index.
pub(crate) fn key_of(alloc: Global, kind: PortKind, index: u64) -> Result<String, Memory>
    ensures { IfOk result (λ key. string_bytes key ≡ pin_key kind index) }
{
    match kind {
        PortKind::Bit => Ok(String::from_str(alloc, "PACKAGE_PIN")?),
        PortKind::Bus => Ok(format!(in alloc; "PACKAGE_PIN[{index}]")?),
    }
}

// The pins of the first package of this name; none where there is no such package.
fn pins_of_package(packages: &Items<Package>, name: NameId) -> &[PackagePin]
    ensures { result.now ≡ unwrap_or
        (option_map (λ p. p.package_pins) (find (λ p. nat_eq p.name name) packages.now)) [] }
{
    for i in 0..packages.len() {
        let package = packages.at(i);
        if package.name == name {
            return package.package_pins.as_slice();
        }
    }
    &[]
}

// The pins of the package that a value names.
fn pins_named(device: &Device, value: PropertyValue) -> &[PackagePin]
    ensures { result.now ≡ pins_by device.now (Some value) }
{
    let PropertyValue::Text(name) = value else {
        return &[];
    };
    pins_of_package(&device.rec().packages, name)
}

// The pins of the device's first package.
fn first_pins(device: &Device) -> &[PackagePin]
    ensures { result.now ≡ pins_by device.now None }
{
    let packages = &device.rec().packages;
    if packages.len() == 0 {
        return &[];
    }
    packages.at(0).package_pins.as_slice()
}

// The pins of the package that a value names; without one the device's first package counts.
fn pins_told(device: &Device, value: Option<PropertyValue>) -> &[PackagePin]
    ensures { result.now ≡ pins_by device.now value }
{
    match value {
        Some(value) => pins_named(device, value),
        None => first_pins(device),
    }
}

/// The pins of the package that the design is for; none where there is no such package.
pub(crate) fn package_pins<'a>(
    alloc: Global,
    design: &NetlistRec,
    device: &'a Device,
    names: &Names,
) -> Result<&'a [PackagePin], Memory>
    ensures { IfOk result (λ pins. pins.now
        ≡ package_pins_seen names.now device.now design.now) }
{
    let values = values_by_key(alloc, &design.prop_map.entries)?;
    Ok(pins_told(device, property(&values, names, "PACKAGE")))
}

/// The place of the first pin of each name.
pub(crate) fn places_of_pins(alloc: Global, pins: &[PackagePin]) -> Result<FirstByKey<u32>, Memory>
    ensures { IfOk result (λ places. (name : ℕ) → value_at places (name_key name)
        ≡ position (λ p. nat_eq p.package_pin name) pins.now) }
{
    let mut places = FirstByKey::new(alloc);
    for i in 0..pins.len() {
        places.put(Key::of_name(pins[i].package_pin.get()), number_of(i)?)?;
    }
    Ok(places)
}
