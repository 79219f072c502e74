//! What the words of a command line ask for.

ghost use Rattle.std.specs.Prelude.{◌≡◌, ◌≤◌, ◌<◌, ◌^◌, ℕ, List, [], length, map, option_map};
ghost use Rattle.std.specs.Prelude.{string_bytes, IfSome, Some, None};
ghost use Rattle.ix_words.specs.Arguments.{AreArgumentsOf, Asks, TellsNumber};
ghost use Rattle.ix_words.specs.Tasks.{command_of, greatest, number_of};
ghost use Rattle.ix_words.specs.Views.{command_view};
ghost use Rattle.ix_words.specs.Words.{tokens};

use crate::arguments::{Arguments, Given};
use crate::command::{Command, CommandName};
use crate::number::number_in;
use crate::options::OptionName;
use crate::token::{Expected, read_word};

// The operands and options among the words after a command; None where the words break a rule.
fn read_arguments(words: &[String]) -> Option<Arguments<'_>>
    ensures { AreArgumentsOf (tokens None (map string_bytes words.now)) result }
{
    let mut arguments = Arguments::new();
    let mut expected = Expected::Any;
    for word in words {
        let step = read_word(expected, word.as_str())?;
        expected = step.expected;
        if let Some(token) = step.token {
            arguments.add(token);
        }
    }
    match expected {
        Expected::Value(_) => None,
        Expected::Any | Expected::Operand => Some(arguments),
    }
}

// The number given for an option, where it is given; None where its value is none.
fn number_of(given: Given<'_>, option: OptionName) -> Option<Option<u64>>
    ensures value { TellsNumber given.entry option result }
    ensures most { IfSome result (λ number. IfSome number (λ n. n ≤ greatest option)) }
{
    match given {
        Given::Never => Some(None),
        Given::Once(text) => {
            let number = number_in(text, option.least(), option.greatest())?;
            Some(Some(number))
        }
        Given::Again => None,
    }
}

// The same of an option whose numbers are small.
fn small_number_of(given: Given<'_>, option: OptionName) -> Option<Option<u32>>
    requires { greatest option < 2 ^ 32 }
    ensures { TellsNumber given.entry option result }
{
    match number_of(given, option)? {
        Some(number) => Some(Some(number as u32)),
        None => Some(None),
    }
}

fn pack<'a>(arguments: &Arguments<'a>) -> Command<'a>
    ensures { Asks CommandName.Pack arguments.now (Some result) }
{
    Command::Pack {
        device: arguments.operand(0),
        design: arguments.operand(1),
        packed: arguments.operand(2),
    }
}

fn place<'a>(arguments: &Arguments<'a>) -> Option<Command<'a>>
    ensures { Asks CommandName.Place arguments.now result }
{
    Some(Command::Place {
        device: arguments.operand(0),
        design: arguments.operand(1),
        packed: arguments.operand(2),
        placed: arguments.operand(3),
        seed: number_of(arguments.seed, OptionName::Seed)?,
        moves: small_number_of(arguments.moves, OptionName::Moves)?,
    })
}

fn route<'a>(arguments: &Arguments<'a>) -> Option<Command<'a>>
    ensures { Asks CommandName.Route arguments.now result }
{
    Some(Command::Route {
        device: arguments.operand(0),
        design: arguments.operand(1),
        placed: arguments.operand(2),
        routed: arguments.operand(3),
        rounds: small_number_of(arguments.rounds, OptionName::Rounds)?,
    })
}

fn check<'a>(arguments: &Arguments<'a>) -> Command<'a>
    ensures { Asks CommandName.Check arguments.now (Some result) }
{
    Command::Check {
        device: arguments.operand(0),
        design: arguments.operand(1),
        physical: arguments.operand(2),
        is_placed: arguments.placed.is_given(),
    }
}

fn flow<'a>(arguments: &Arguments<'a>) -> Option<Command<'a>>
    ensures { Asks CommandName.Flow arguments.now result }
{
    Some(Command::Flow {
        device: arguments.operand(0),
        design: arguments.operand(1),
        routed: arguments.operand(2),
        seed: number_of(arguments.seed, OptionName::Seed)?,
        moves: small_number_of(arguments.moves, OptionName::Moves)?,
        rounds: small_number_of(arguments.rounds, OptionName::Rounds)?,
        trials: small_number_of(arguments.trials, OptionName::Trials)?,
    })
}

fn demo<'a>(arguments: &Arguments<'a>) -> Option<Command<'a>>
    ensures { Asks CommandName.Demo arguments.now result }
{
    let device = arguments.operand(1);
    let design = arguments.operand(2);
    if device == design {
        return None;
    }
    Some(Command::Demo {
        size: number_in(arguments.operand(0), 1, 16)? as u32,
        device,
        design,
    })
}

// What a command asks for with arguments that fit it.
fn ask<'a>(command: CommandName, arguments: &Arguments<'a>) -> Option<Command<'a>>
    ensures { Asks command arguments.now result }
{
    match command {
        CommandName::Pack => Some(pack(arguments)),
        CommandName::Place => place(arguments),
        CommandName::Route => route(arguments),
        CommandName::Check => Some(check(arguments)),
        CommandName::Flow => flow(arguments),
        CommandName::Demo => demo(arguments),
    }
}

/// What the words of a command line ask for, which follow the program's own name; None where they
/// break a rule. There is a command first, then its operands and options as the head of this crate
/// says. The numbers of options are in range: a seed is any of 64 bits, there are at most 10000
/// moves, 1 to 1000 rounds, and 1 to 16 trials. A demo's size is 1 to 16.
#[tactic(auto, unfolding(crate::specs::Tasks::command_of))]
pub fn read_words(words: &[String]) -> Option<Command<'_>>
    ensures { option_map command_view result ≡ command_of (map string_bytes words.now) }
{
    let (name, others) = words.split_first()?;
    let command = CommandName::named(name.as_str())?;
    let arguments = read_arguments(others)?;
    if !arguments.fit(command) {
        return None;
    }
    ask(command, &arguments)
}
