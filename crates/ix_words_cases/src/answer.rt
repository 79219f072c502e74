//! The answer to a case.

use ix_cases::field;
use ix_words::{Command, read_words};
use std::alloc::{AllocError, Global};

/// The words of a case: its fields but the first.
fn words_of(alloc: Global, line: &str) -> Result<Vec<String>, AllocError> {
    let mut words = Vec::new(alloc);
    for word in line.split('|').skip(1) {
        words.push(String::from_str(alloc, word.trim())?)?;
    }
    Ok(words)
}

/// Writes operands.
fn put_operands(text: &mut String, operands: &[&str]) -> Result<(), AllocError> {
    for operand in operands {
        write!(text, " {operand:?}")?;
    }
    Ok(())
}

/// Writes an option with its number.
fn put_option(text: &mut String, name: &str, number: Option<u64>) -> Result<(), AllocError> {
    match number {
        Some(number) => write!(text, ", {name} {number}"),
        None => write!(text, ", {name} none"),
    }
}

/// A small number as any other.
fn widened(number: Option<u32>) -> Option<u64> {
    match number {
        Some(number) => Some(u64::from(number)),
        None => None,
    }
}

fn put_place(text: &mut String, seed: Option<u64>, moves: Option<u32>) -> Result<(), AllocError> {
    put_option(text, "seed", seed)?;
    put_option(text, "moves", widened(moves))
}

fn put_command(text: &mut String, command: &Command<'_>) -> Result<(), AllocError> {
    match *command {
        Command::Pack {
            device,
            design,
            packed,
        } => {
            text.push_str("pack")?;
            put_operands(text, &[device, design, packed])
        }
        Command::Place {
            device,
            design,
            packed,
            placed,
            seed,
            moves,
        } => {
            text.push_str("place")?;
            put_operands(text, &[device, design, packed, placed])?;
            put_place(text, seed, moves)
        }
        Command::Route {
            device,
            design,
            placed,
            routed,
            rounds,
        } => {
            text.push_str("route")?;
            put_operands(text, &[device, design, placed, routed])?;
            put_option(text, "rounds", widened(rounds))
        }
        Command::Check {
            device,
            design,
            physical,
            is_placed,
        } => {
            text.push_str("check")?;
            put_operands(text, &[device, design, physical])?;
            text.push_str(if is_placed { ", placed" } else { ", routed" })
        }
        Command::Flow {
            device,
            design,
            routed,
            seed,
            moves,
            rounds,
            trials,
        } => {
            text.push_str("flow")?;
            put_operands(text, &[device, design, routed])?;
            put_place(text, seed, moves)?;
            put_option(text, "rounds", widened(rounds))?;
            put_option(text, "trials", widened(trials))
        }
        Command::Demo {
            size,
            device,
            design,
        } => {
            write!(text, "demo {size}")?;
            put_operands(text, &[device, design])
        }
    }
}

/// What the case of a line shows, and the answer.
pub fn answer_to(alloc: Global, line: &str) -> Result<String, AllocError> {
    let mut text = String::from_str(alloc, field(line, 0))?;
    text.push_str(": ")?;
    let words = words_of(alloc, line)?;
    match read_words(&words) {
        Some(command) => put_command(&mut text, &command)?,
        None => text.push_str("refused")?,
    }
    Ok(text)
}
