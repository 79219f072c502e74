//! The words of a command line: which of the six commands they ask for, with its operands and
//! options.
//!
//! - An option with a value is written `--name VALUE`, as two words, or `--name=VALUE`, as one; a
//!   flag is written `--name`. Each option stands at most once, anywhere after the command.
//! - A word `--` ends the options: all words after it are operands.
//! - Before it a word that begins with `-`, and isn't `-` alone, is an option of the command. No
//!   option is shortened.
//! - A VALUE in a word of its own doesn't begin with `-`, unless it is `-` alone.
//! - Every other word is an operand, `-` and the empty word too.
//! - There are exactly as many operands as the command has.
//!
//! | command | operands | options |
//! |---|---|---|
//! | `pack` | device, design, packed | |
//! | `place` | device, design, packed, placed | `--seed`, `--moves` |
//! | `route` | device, design, placed, routed | `--rounds` |
//! | `check` | device, design, physical | `--placed`, a flag |
//! | `flow` | device, design, routed | `--seed`, `--moves`, `--rounds`, `--trials` |
//! | `demo` | size, device, design, the last two different | |
//!
//! A number is 1 to 20 decimal digits and nothing else, in its range. Nothing here allocates.
#![tactic(auto)]

mod arguments;
mod command;
mod number;
mod options;
mod task;
mod token;

pub use command::Command;
pub use task::read_words;
