//! The words that ask for a run of what is built.

ghost use Rattle.std.specs.Prelude.{◌≡◌, Some, map, option_map, string_bytes};
ghost use Rattle.ix_words.specs.Views.{command_view};
ghost use Rattle.ix_flow.specs.Words.{asked_in, asked_of, level_of};
ghost use Rattle.ix_flow.specs.WordsView.{asked_view};

use ix_legal::Level;
use ix_words::{Command, read_words};

/// The files that `flow` is given.
#[derive(Clone, Copy)]
pub(crate) struct FlowWords<'a> {
    pub device: &'a str,
    pub design: &'a str,
    pub routed: &'a str,
}

/// The files that `check` is given, and the level at which it judges.
#[derive(Clone, Copy)]
pub(crate) struct CheckWords<'a> {
    pub device: &'a str,
    pub design: &'a str,
    pub physical: &'a str,
    pub level: Level,
}

/// What is asked for.
#[derive(Clone, Copy)]
pub(crate) enum Words<'a> {
    Flow(FlowWords<'a>),
    Check(CheckWords<'a>),
}

fn level_of(is_placed: bool) -> Level
    ensures { result ≡ level_of is_placed }
{
    if is_placed {
        Level::Placed
    } else {
        Level::Routed
    }
}

/// What a command asks for. Options of `flow` and the other commands aren't built yet.
#[tactic(auto, unfolding(crate::specs::Words::asked_of))]
fn words_of(command: Command<'_>) -> Option<Words<'_>>
    ensures { option_map asked_view result ≡ asked_of (Some (command_view command.entry)) }
{
    match command {
        Command::Flow {
            device,
            design,
            routed,
            seed: None,
            moves: None,
            rounds: None,
            trials: None,
        } => Some(Words::Flow(FlowWords {
            device,
            design,
            routed,
        })),
        Command::Check {
            device,
            design,
            physical,
            is_placed,
        } => Some(Words::Check(CheckWords {
            device,
            design,
            physical,
            level: level_of(is_placed),
        })),
        _ => None,
    }
}

/// What words ask for; none where they are refused.
#[tactic(auto, unfolding(crate::specs::Words::asked_of))]
pub(crate) fn asked_words(words: &[String]) -> Option<Words<'_>>
    ensures { option_map asked_view result ≡ asked_in (map string_bytes words.now) }
{
    words_of(read_words(words)?)
}
