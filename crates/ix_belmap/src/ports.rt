//! What the properties of the top's ports say of their bits.

ghost use Rattle.std.specs.Prelude.{◌≡◌, ◌++◌, ◌<◌, ◌≤◌, ◌^◌, ℕ, List, length, map, nat_eq};
ghost use Rattle.std.specs.Prelude.{IfOk, OnOk};
ghost use Rattle.std.specs.List.{position};
ghost use Rattle.ix_keys.specs.Keys.{name_key};
ghost use Rattle.ix_first.specs.First.{value_at};
ghost use Rattle.ix_rec.specs.declared.netlist.Entry.{Entry as EntrySeen};
ghost use Rattle.ix_belmap.specs.Pins.{TopFits, bits_of_kind, bits_of_port, cells_of_port};
ghost use Rattle.ix_belmap.specs.Pins.{fixed_to, fixing_by, fixing_of, fixings as fixings_seen};
ghost use Rattle.ix_belmap.specs.Pins.{pin_key, pin_named, property as property_seen};
ghost use Rattle.ix_belmap.specs.Pins.{value_of_key};

use crate::properties::{key_of, package_pins, places_of_pins, property, values_by_key};
use ix_device::Device;
use ix_first::FirstByKey;
use ix_keys::Key;
use ix_num::{Memory, SiteId};
use ix_rec::{
    Direction, Items, NetlistRec, PackagePin, PackagePinSite, Port, PortKind, PropertyValue,
};
use ix_strings::Names;
use std::alloc::Global;

/// Where the properties of a port fix one of its bits.
#[derive(Clone, Copy)]
pub enum Fixing {
    /// They don't fix it.
    Free,
    /// To a package pin that isn't there or has no site.
    Nowhere,
    /// To a package pin with a site.
    At {
        /// The package pin, by its place in the package.
        pin: u32,
        /// Its site.
        site: SiteId,
    },
}

// How many bits of a port are port cells.
fn cells_of(port: &Port) -> u64
    ensures count { result
        ≡ cells_of_port port.now.dir
        (bits_of_kind port.now.kind port.now.bus_start port.now.bus_end) }
    ensures few { result ≤ 2 ^ 32 }
{
    match port.dir {
        Direction::Inout => 0,
        Direction::Input | Direction::Output => match port.kind {
            PortKind::Bit => 1,
            PortKind::Bus => u64::from(port.bus_start.abs_diff(port.bus_end)) + 1,
        },
    }
}

// Where the pin that a value names leads.
fn fixing_at(
    device: &Device,
    pins: &[PackagePin],
    places: &FirstByKey<u32>,
    value: PropertyValue,
) -> Fixing
    requires { (name : ℕ) → value_at places.now (name_key name)
        ≡ position (λ p. nat_eq p.package_pin name) pins.now }
    ensures { result ≡ fixed_to device.now pins.now (pin_named pins.now value) }
{
    let PropertyValue::Text(name) = value else {
        return Fixing::Nowhere;
    };
    let Some(pin) = places.get(Key::of_name(name.get())) else {
        return Fixing::Nowhere;
    };
    match pins[pin as usize].site {
        PackagePinSite::NoSite => Fixing::Nowhere,
        PackagePinSite::Site(name) => match device.site(name) {
            Some(site) => Fixing::At { pin, site },
            None => Fixing::Nowhere,
        },
    }
}

// Where a port with these values fixes its bit of this index.
fn fixing_of_bit(
    alloc: Global,
    device: &Device,
    names: &Names,
    pins: &[PackagePin],
    places: &FirstByKey<u32>,
    values: &FirstByKey<PropertyValue>,
    kind: PortKind,
    index: u64,
) -> Result<Fixing, Memory>
    requires { (name : ℕ) → value_at places.now (name_key name)
        ≡ position (λ p. nat_eq p.package_pin name) pins.now }
    ensures { (properties : List EntrySeen)
        → ((key : ℕ) → value_at values.now (name_key key) ≡ value_of_key properties key)
        → IfOk result (λ fixing. fixing
        ≡ fixing_by device.now pins.now
        (property_seen names.now properties (pin_key kind index))) }
{
    let key = key_of(alloc, kind, index)?;
    Ok(match property(values, names, key.as_str()) {
        Some(value) => fixing_at(device, pins, places, value),
        None => Fixing::Free,
    })
}

// Puts what a port's properties say of each of its bits behind what was said of the bits before.
fn put_port(
    alloc: Global,
    device: &Device,
    names: &Names,
    pins: &[PackagePin],
    places: &FirstByKey<u32>,
    port: &Port,
    fixings: &mut Items<Fixing>,
) -> Result<(), Memory>
    requires { (name : ℕ) → value_at places.now (name_key name)
        ≡ position (λ p. nat_eq p.package_pin name) pins.now }
    ensures { OnOk result (fixings.new ≡ fixings.old
        ++ map (λ index. fixing_of names.now device.now pins.now (port.now, index))
        (bits_of_port port.now)) }
{
    let values = values_by_key(alloc, &port.prop_map.entries)?;
    for index in 0..cells_of(port) {
        let fixing = fixing_of_bit(
            alloc, device, names, pins, places, &values, port.kind, index,
        )?;
        fixings.push(fixing)?;
    }
    Ok(())
}

/// What the properties of the top's ports say of each port cell, in flat order.
pub(crate) fn fixings(
    alloc: Global,
    design: &NetlistRec,
    device: &Device,
    names: &Names,
) -> Result<Items<Fixing>, Memory>
    requires { TopFits design.now }
    ensures { IfOk result (λ all. all ≡ fixings_seen names.now device.now design.now) }
{
    let pins = package_pins(alloc, design, device, names)?;
    let places = places_of_pins(alloc, pins)?;
    let top = design.cell_decls.at(design.top_inst.cell as usize);
    let mut all = Items::new(alloc);
    for i in 0..top.ports.len() {
        let port = design.port_list.at(*top.ports.at(i) as usize);
        put_port(alloc, device, names, pins, &places, port, &mut all)?;
    }
    Ok(all)
}
