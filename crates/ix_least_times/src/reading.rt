//! What is read: the words of the command line, and lines of searches.

use anyhow::{Context, Result};
use std::alloc::Global;
use std::env;

/// The words of the command line.
#[derive(Drop)]
pub struct Words {
    pub costs: String,
    pub searches: String,
    pub device: Option<String>,
}

pub fn words_of(rt: &HostRuntime) -> Result<Words> {
    let mut words = env::args(rt)?;
    let _program = words.next();
    Ok(Words {
        costs: words.next().context("no costs")?,
        searches: words.next().context("no searches")?,
        device: words.next(),
    })
}

fn pair_of(word: &str) -> Result<(u32, u32)> {
    let (source, target) = word.split_once('-').context("no pair")?;
    Ok((source.parse::<u32>()?, target.parse::<u32>()?))
}

/// The pairs of points behind the name of a line of searches.
pub fn pairs_of(alloc: Global, line: &str) -> Result<Vec<(u32, u32)>> {
    let mut pairs = Vec::new(alloc);
    for word in line.split(' ').skip(1) {
        pairs.push(pair_of(word)?)?;
    }
    Ok(pairs)
}
