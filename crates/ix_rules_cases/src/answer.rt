//! The answer to a case.

ghost use Rattle.std.specs.Prelude.{◌≡◌};
ghost use Rattle.ix_graph.specs.Graph.{graph_of};
ghost use Rattle.ix_legal.specs.Legal.{IsSound};

use crate::reading::{Given, given_by};
use anyhow::Result;
use ix_cases::{bytes_of, field, joined};
use ix_legal::Level;
use ix_num::Memory;
use ix_report::{Report, line};
use ix_rules::first_broken;
use ix_strings::Names;
use std::alloc::Global;

/// The line that tells whether a netlist keeps the rules of a level.
pub(crate) fn line_at(
    alloc: Global,
    given: &Given,
    names: &Names,
    level: Level,
) -> Result<Vec<u8>, Memory>
    requires graph { given.now.graph ≡ graph_of given.now.device }
    requires sound { IsSound names.now given.now.phys }
{
    match first_broken(
        alloc,
        &given.device,
        &given.graph,
        &given.phys,
        names,
        level,
    )? {
        None => line(alloc, &Report::Yes { derived: false }),
        Some((rule, place)) => line(alloc, &Report::No { rule, place }),
    }
}

/// Adds a line without its line feed.
pub(crate) fn put_line(text: &mut String, line: &[u8]) -> Result<()> {
    let line = str::from_utf8(line)?;
    text.push_str(line.strip_suffix('\n').unwrap_or(line))?;
    Ok(())
}

// Judges the netlist of a file on the device of another, at both levels.
fn put_files(alloc: Global, text: &mut String, device: &[u8], netlist: &[u8]) -> Result<()> {
    let mut names = Names::new(alloc);
    let given = given_by(alloc, device, netlist, &mut names)?;
    let placed = line_at(alloc, &given, &names, Level::Placed)?;
    let routed = line_at(alloc, &given, &names, Level::Routed)?;
    put_line(text, &placed)?;
    if placed.as_slice() != routed.as_slice() {
        text.push_str("; routed ")?;
        put_line(text, &routed)?;
    }
    Ok(())
}

/// What the case of a line shows, and the answer.
pub(crate) fn answer_to(alloc: Global, device: &str, netlist: &str, line: &str) -> Result<String> {
    let mut text = String::from_str(alloc, field(line, 0))?;
    text.push_str(": ")?;
    let device = bytes_of(alloc, device)?;
    let base = bytes_of(alloc, netlist)?;
    let netlist = joined(alloc, &base, field(line, 3), ' ')?;
    put_files(alloc, &mut text, &device, &netlist)?;
    Ok(text)
}
