//! The answer to a case.

ghost use Rattle.std.specs.Prelude.{◌≡◌, []};
ghost use Rattle.ix_rec.specs.Ranges.{IndexesFit};

use crate::asked::Asked;
use crate::bytes::changed_bytes;
use crate::constants::put_constants;
use crate::ends::put_segment;
use crate::graph::put_graph;
use crate::lookups::put_told;
use crate::reading::{open, put_breach, put_fault};
use crate::record_text::put_device;
use ix_cases::field;
use ix_device::Device;
use ix_device_read::read_device;
use ix_frame::Frame;
use ix_graph::NodeGraph;
use ix_rec::DeviceRec;
use ix_strings::Names;
use std::alloc::{AllocError, Global};

/// Tries a call on the graph of a device.
fn put_by_graph(
    text: &mut String,
    alloc: Global,
    line: &str,
    asked: &Asked<'_>,
) -> Result<(), AllocError> {
    match NodeGraph::build(alloc, asked.device) {
        Ok(graph) => match field(line, 1) {
            "graph" => put_graph(text, &graph, asked),
            "constants" => put_constants(text, alloc, &graph, asked, field(line, 3)),
            "ends" => put_segment(text, &graph, asked, field(line, 3)),
            _ => text.push_str("no such call"),
        },
        Err(_) => text.push_str("out of memory"),
    }
}

/// Tries a call on a device.
fn put_by_device(
    text: &mut String,
    alloc: Global,
    line: &str,
    asked: &Asked<'_>,
) -> Result<(), AllocError> {
    match field(line, 1) {
        "check" => text.push_str("valid"),
        "ask" => put_told(text, asked, field(line, 3)),
        _ => put_by_graph(text, alloc, line, asked),
    }
}

/// Checks a record, and tries a call on its device.
fn put_by_record(
    text: &mut String,
    alloc: Global,
    line: &str,
    rec: DeviceRec,
    names: &Names,
) -> Result<(), AllocError>
    requires { IndexesFit rec }
{
    match Device::check(alloc, rec, names) {
        Ok(device) => {
            let asked = Asked {
                device: &device,
                names,
            };
            put_by_device(text, alloc, line, &asked)
        }
        Err(fault) => put_breach(text, &fault),
    }
}

/// Reads a device, and tries a call on it.
fn put_by_frame(
    text: &mut String,
    alloc: Global,
    line: &str,
    frame: &Frame<'_>,
    names: &mut Names,
) -> Result<(), AllocError>
    requires { names.old ≡ [] }
{
    match read_device(alloc, frame, names) {
        Ok(rec) => {
            if field(line, 1) == "record" {
                put_device(text, names, &rec)
            } else {
                put_by_record(text, alloc, line, rec, names)
            }
        }
        Err(fault) => put_fault(text, &fault),
    }
}

/// What the case of a line shows, and the answer; the device's file is given in hexadecimal digits.
pub fn answer_to(alloc: Global, line: &str, device: &str) -> Result<String, AllocError> {
    let mut text = String::from_str(alloc, field(line, 0))?;
    text.push_str(": ")?;
    let changes = match field(line, 1) {
        "record" | "check" => field(line, 3),
        _ => "",
    };
    let bytes = changed_bytes(alloc, device, changes)?;
    let mut names = Names::new(alloc);
    match open(&bytes) {
        Some(Ok(frame)) => put_by_frame(&mut text, alloc, line, &frame, &mut names)?,
        Some(Err(fault)) => write!(&mut text, "{fault}")?,
        None => text.push_str("too long")?,
    }
    Ok(text)
}
