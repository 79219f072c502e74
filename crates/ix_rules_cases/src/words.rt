//! The words of the command line.

use anyhow::{Context, Result};
use std::env;

/// The words of the command line.
#[derive(Drop)]
pub(crate) struct Words {
    /// What is to be done.
    pub command: String,
    /// The file of cases, or of a device.
    pub file: String,
    /// The file of a netlist.
    pub netlist: Option<String>,
    /// The level at which it is judged.
    pub level: Option<String>,
}

/// The words that follow the program's name.
pub(crate) fn words_of(rt: &HostRuntime) -> Result<Words> {
    let mut words = env::args(rt)?;
    let _program = words.next();
    Ok(Words {
        command: words.next().context("no command")?,
        file: words.next().context("no file")?,
        netlist: words.next(),
        level: words.next(),
    })
}
