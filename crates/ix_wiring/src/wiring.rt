//! The nets of pins, and the drivers of nets.

ghost use Rattle.std.specs.Prelude.{◌≡◌, ◌<◌, length, map, IfOk, OnOk, OnErr};
ghost use Rattle.ix_wiring.specs.Wired.{AreUndriven, Drives, IsNetIn, IsWired};
ghost use Rattle.ix_wiring.specs.Wired.{NetsFit};

use crate::flat_pin::FlatPin;
use ix_num::{Memory, NameId, NetRef};
use ix_rec::{CellPin, FlatNet, PinMap};
use std::alloc::Global;

/// The nets of pins, and the signal nets with their drivers.
#[derive(Drop)]
pub struct Wiring {
    /// The net of each pin.
    pub pins: PinMap<NetRef>,
    /// The signal nets.
    pub nets: Vec<FlatNet>,
}

// The signal nets, without their drivers.
fn nets_named(alloc: Global, net_names: &[NameId]) -> Result<Vec<FlatNet>, Memory>
    ensures { IfOk result (λ nets. AreUndriven net_names.now nets.items) }
{
    let mut nets = Vec::new(alloc);
    for i in 0..net_names.len() {
        nets.push(FlatNet {
            name: net_names[i],
            driver: None,
        })?;
    }
    Ok(nets)
}

// Notes the driver of a net.
fn drive(nets: &mut Vec<FlatNet>, pin: &FlatPin)
    requires { IsNetIn (length nets.old.items) pin.now.net }
    ensures { Drives nets.old.items nets.new.items pin.now }
{
    if !pin.drives {
        return;
    }
    if let NetRef::Signal(net) = pin.net {
        nets[net.get() as usize].driver = Some(CellPin {
            cell: pin.cell,
            pin: pin.pin,
        });
    }
}

/// The map of these pins to their nets, and the signal nets of these names with their drivers.
///
/// # Errors
///
/// Want of memory.
pub fn wired(alloc: Global, net_names: &[NameId], pins: &[FlatPin]) -> Result<Wiring, Memory>
    requires nets { NetsFit (length net_names.now) pins.now }
    ensures { IfOk result (IsWired net_names.now pins.now) }
{
    let mut map = PinMap::new(alloc);
    let mut nets = nets_named(alloc, net_names)?;
    for i in 0..pins.len() {
        let pin = pins[i];
        map.insert(pin.cell, pin.pin, pin.net)?;
        drive(&mut nets, &pin);
    }
    Ok(Wiring { pins: map, nets })
}
