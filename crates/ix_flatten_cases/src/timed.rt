//! Flattening that is timed.

ghost use Rattle.std.specs.Prelude.{◌+◌, ◌-◌, ◌^◌, ◌<◌, length};
ghost use Rattle.ix_hierarchy.specs.Fits.{AreInputsNamed, NetlistFits};

use crate::reading::given_by;
use anyhow::{Result, bail};
use ix_device::Device;
use ix_flatten::{DesignFault, flatten};
use ix_rec::{Flat, NetlistRec};
use ix_strings::Names;
use std::time::Instant;

// The lengths of a flat design's lists.
fn print_counts(rt: &HostRuntime, flat: &Flat) -> Result<()> {
    let cells = flat.cells.len();
    let ports = flat.ports;
    let nets = flat.nets.len();
    let pins = flat.pins.len();
    let tables = flat.tables.len();
    println!(rt; "cells {cells}, ports {ports}, nets {nets}, pins {pins}, tables {tables}")?;
    Ok(())
}

// Flattens a design on a device, and tells how long it took.
fn time_given(rt: &HostRuntime, device: &Device, rec: &NetlistRec, names: &mut Names) -> Result<()>
    requires fits { NetlistFits (length names.old) rec.now }
    requires inputs { AreInputsNamed (length names.old) device.now }
    requires few { length names.old + 2 ^ 29 < 2 ^ 32 - 1 }
{
    let start = Instant::now(rt)?;
    match flatten(rt.alloc(), rec, device, names) {
        Ok(flat) => {
            let micros = start.elapsed(rt)?.as_micros();
            eprintln!(rt; "flattened in {micros} us")?;
            print_counts(rt, &flat)
        }
        Err(DesignFault::Broken(rule, word)) => bail!("{rule:?} {word:?}"),
        Err(DesignFault::Memory) => bail!("out of memory"),
    }
}

/// Flattens the design of a file on the device of another, and tells how long it took.
pub(crate) fn time_flattening(rt: &HostRuntime, device: &[u8], design: &[u8]) -> Result<()> {
    let mut names = Names::new(rt.alloc());
    let given = given_by(rt.alloc(), device, design, &mut names)?;
    time_given(rt, &given.device, &given.rec, &mut names)
}
