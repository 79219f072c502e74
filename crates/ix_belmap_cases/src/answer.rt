//! The answer to a case.

use crate::checks::{has_bits, is_design, top_fits};
use crate::reading::{Design, netlist, put};
use crate::telling::{put_fixed, put_groups, put_short};
use anyhow::{Result as Read, bail};
use ix_belmap::{PinFault, count_bels, first_short, fixed_pins, groups};
use ix_cases::{bytes_of, field};
use ix_device::Device;
use ix_device_read::read_device;
use ix_frame::Frame;
use ix_num::Memory;
use ix_rec::{Flat, NetlistRec};
use ix_strings::Names;
use std::alloc::Global;

/// The device of a file.
pub(crate) fn device_of(alloc: Global, text: &str, names: &mut Names) -> Read<Device> {
    let bytes = bytes_of(alloc, text)?;
    if bytes.len() > 1 << 20 || names.len() > 1 << 20 {
        bail!("the device is too large");
    }
    let frame = Frame::open(&bytes)?;
    let rec = read_device(alloc, &frame, names)?;
    Ok(Device::check(alloc, rec, names)?)
}

// A design with the sites of its ports, or why they can't be fixed.
fn fixed(
    alloc: Global,
    text: &mut String,
    device: &Device,
    names: &Names,
    rec: &NetlistRec,
    flat: Flat,
    with_groups: bool,
) -> Result<(), Memory> {
    if !is_design(&flat, names.len()) {
        text.push_str(" no design")?;
        return Ok(());
    }
    if !top_fits(rec) || !has_bits(rec, flat.ports) {
        text.push_str(" no such ports")?;
        return Ok(());
    }
    match fixed_pins(alloc, rec, device, flat, names) {
        Ok(flat) => {
            put_fixed(text, device, names, &flat)?;
            if with_groups {
                put_groups(text, names, &flat, &groups(alloc, device, &flat)?)?;
            }
            Ok(())
        }
        Err(PinFault::Broken(rule, word)) => {
            let cell = word.as_str();
            write!(text, " {rule:?} at {cell}")?;
            Ok(())
        }
        Err(PinFault::Memory) => Err(Memory),
    }
}

fn grouped(
    alloc: Global,
    text: &mut String,
    device: &Device,
    names: &Names,
    flat: &Flat,
    whole: bool,
) -> Result<(), Memory> {
    if !is_design(flat, names.len()) {
        text.push_str(" no design")?;
        return Ok(());
    }
    let groups = groups(alloc, device, flat)?;
    if whole {
        return put_groups(text, names, flat, &groups);
    }
    let count = groups.len();
    write!(text, " {count}")?;
    Ok(())
}

fn short(
    alloc: Global,
    text: &mut String,
    device: &Device,
    names: &Names,
    flat: &Flat,
) -> Result<(), Memory> {
    match first_short(alloc, device, flat)? {
        Some(short) => put_short(text, names, short.kind, short.cells, short.bels),
        None => {
            text.push_str(" none")?;
            Ok(())
        }
    }
}

fn counted(text: &mut String, device: &Device, names: &Names, ty: &str) -> Result<(), Memory> {
    match names.find(ty) {
        Some(ty) => {
            let count = count_bels(device, ty);
            write!(text, " {count}")?;
        }
        None => text.push_str(" no such name")?,
    }
    Ok(())
}

fn told(
    alloc: Global,
    text: &mut String,
    device: &Device,
    names: &Names,
    design: Design,
    question: &str,
) -> Result<(), Memory> {
    let Design {
        properties,
        ports,
        flat,
    } = design;
    let rec = netlist(alloc, properties, ports)?;
    if let Some(ty) = question.strip_prefix("count ") {
        return counted(text, device, names, ty);
    }
    match question {
        "fixed" => fixed(alloc, text, device, names, &rec, flat, false),
        "fixed groups" => fixed(alloc, text, device, names, &rec, flat, true),
        "groups" => grouped(alloc, text, device, names, &flat, true),
        "number of groups" => grouped(alloc, text, device, names, &flat, false),
        "short" => short(alloc, text, device, names, &flat),
        _ => Ok(()),
    }
}

/// What the case of a line shows, and the answer.
pub(crate) fn answer_to(
    alloc: Global,
    device: &Device,
    names: &mut Names,
    line: &str,
) -> Result<String, Memory> {
    let mut text = String::from_str(alloc, field(line, 0))?;
    text.push_str(":")?;
    let mut design = Design::new(alloc);
    for item in line.split('|') {
        put(alloc, &mut design, names, item.trim())?;
    }
    told(alloc, &mut text, device, names, design, field(line, 1))?;
    Ok(text)
}
