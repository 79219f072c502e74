//! Judging that is timed.

ghost use Rattle.std.specs.Prelude.{◌≡◌};
ghost use Rattle.ix_graph.specs.Graph.{graph_of};
ghost use Rattle.ix_legal.specs.Legal.{IsSound};

use crate::answer::{line_at, put_line};
use crate::reading::{Given, given_by};
use crate::words::Words;
use anyhow::{Context, Result, bail};
use ix_legal::Level;
use ix_strings::Names;
use std::fs;
use std::time::Instant;

fn level_of(word: &str) -> Option<Level> {
    match word {
        "placed" => Some(Level::Placed),
        "routed" => Some(Level::Routed),
        _ => None,
    }
}

// Judges a netlist, prints the answer, and tells how long judging took.
fn time_given(rt: &HostRuntime, given: &Given, names: &Names, level: Level) -> Result<()>
    requires graph { given.now.graph ≡ graph_of given.now.device }
    requires sound { IsSound names.now given.now.phys }
{
    let start = Instant::now(rt)?;
    let line = line_at(rt.alloc(), given, names, level)?;
    let micros = start.elapsed(rt)?.as_micros();
    eprintln!(rt; "judged in {micros} us")?;
    let mut text = String::new(rt.alloc());
    put_line(&mut text, &line)?;
    rt.println(text.as_str())?;
    Ok(())
}

// The same of the bytes of a device and of a netlist. The level is looked at behind both.
fn time_bytes(rt: &HostRuntime, device: &[u8], netlist: &[u8], level: &str) -> Result<()> {
    let mut names = Names::new(rt.alloc());
    let given = given_by(rt.alloc(), device, netlist, &mut names)?;
    let level = level_of(level).context("no such level")?;
    time_given(rt, &given, &names, level)
}

/// Judges the netlist of a file on the device of another, prints the answer, and tells how long
/// judging took.
pub(crate) fn time_files(rt: &HostRuntime, words: &Words) -> Result<()> {
    let (Some(netlist), Some(level)) = (&words.netlist, &words.level) else {
        bail!("no netlist or no level");
    };
    let device = fs::read(rt, words.file.as_str())?;
    let netlist = fs::read(rt, netlist.as_str())?;
    time_bytes(rt, &device, &netlist, level.as_str())
}
