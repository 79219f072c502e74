//! A line of the file as a list of steps.

use anyhow::{Context, Result, bail};
use ix_num::NodeId;
use ix_occupy::Step;
use std::alloc::Global;

/// A case: its name, the number of nodes, and the steps.
#[derive(Drop)]
pub(crate) struct Case {
    pub(crate) name: String,
    pub(crate) nodes: u32,
    pub(crate) steps: Vec<Step>,
}

/// The case on a line.
pub(crate) fn case_of(alloc: Global, line: &str) -> Result<Case> {
    let (name, rest) = line.split_once('|').context("no bar")?;
    let (nodes, words) = rest.split_once('|').context("one bar")?;
    let mut steps = Vec::new(alloc);
    for word in words.split_whitespace() {
        put_step(&mut steps, word)?;
    }
    Ok(Case {
        name: String::from_str(alloc, name.trim())?,
        nodes: nodes.trim().parse::<u32>()?,
        steps,
    })
}

// Puts the steps that a word stands for.
fn put_step(steps: &mut Vec<Step>, word: &str) -> Result<()> {
    if let Some(rest) = word.strip_prefix('+') {
        let (net, node) = net_and_node(rest)?;
        steps.push(Step::Claim(net, node))?;
    } else if let Some(rest) = word.strip_prefix('-') {
        let (net, node) = net_and_node(rest)?;
        steps.push(Step::Release(net, node))?;
    } else if let Some(count) = word.strip_prefix("end*") {
        for _ in 0..count.parse::<u32>()? {
            steps.push(Step::End)?;
        }
    } else if word == "end" {
        steps.push(Step::End)?;
    } else {
        bail!("not a step: {word}");
    }
    Ok(())
}

fn net_and_node(text: &str) -> Result<(u32, NodeId)> {
    let (net, node) = text.split_once(':').context("no colon")?;
    Ok((net.parse::<u32>()?, NodeId::new(node.parse::<u32>()?)))
}
