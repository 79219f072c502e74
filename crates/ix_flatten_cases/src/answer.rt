//! The answer to a case.

ghost use Rattle.std.specs.Prelude.{◌+◌, ◌-◌, ◌^◌, ◌<◌, length};
ghost use Rattle.ix_hierarchy.specs.Fits.{AreInputsNamed, NetlistFits};

use crate::reading::given_by;
use crate::telling::put_flat;
use anyhow::Result;
use ix_cases::{bytes_of, field};
use ix_device::Device;
use ix_flatten::{DesignFault, flatten};
use ix_num::Memory;
use ix_rec::NetlistRec;
use ix_strings::Names;
use std::alloc::Global;

// Flattens a design.
fn put_flattened(
    alloc: Global,
    text: &mut String,
    device: &Device,
    rec: &NetlistRec,
    names: &mut Names,
) -> Result<(), Memory>
    requires fits { NetlistFits (length names.old) rec.now }
    requires inputs { AreInputsNamed (length names.old) device.now }
    requires few { length names.old + 2 ^ 29 < 2 ^ 32 - 1 }
{
    match flatten(alloc, rec, device, names) {
        Ok(flat) => put_flat(alloc, text, names, &flat),
        Err(DesignFault::Broken(rule, word)) => {
            let word = word.as_str();
            write!(text, " {rule:?} \"{word}\"")?;
            Ok(())
        }
        Err(DesignFault::Memory) => Err(Memory),
    }
}

// Flattens the design of a file on the device of another.
fn put_files(alloc: Global, text: &mut String, device: &[u8], design: &[u8]) -> Result<()> {
    let mut names = Names::new(alloc);
    let given = given_by(alloc, device, design, &mut names)?;
    put_flattened(alloc, text, &given.device, &given.rec, &mut names)?;
    Ok(())
}

/// What the case of a line shows, and the answer.
pub(crate) fn answer_to(alloc: Global, device: &str, line: &str) -> Result<String> {
    let mut text = String::from_str(alloc, field(line, 0))?;
    text.push_str(":")?;
    let device = bytes_of(alloc, device)?;
    let design = bytes_of(alloc, field(line, 2))?;
    put_files(alloc, &mut text, &device, &design)?;
    Ok(text)
}
