//! Words read one by one.

ghost use Rattle.std.specs.Prelude.{◌≡◌};
ghost use Rattle.ix_words.specs.Words.{alone, is_dashed, joined, option_word};
ghost use Rattle.ix_words.specs.Words.{option_named};
ghost use Rattle.ix_words.specs.Reading.{Reads, ReadsOption};

use crate::options::OptionName;

/// What words are read as.
#[derive(Clone, Copy)]
pub(crate) enum Token<'a> {
    Operand(&'a str),
    /// An option with its value. That of a flag is empty.
    Given(OptionName, &'a str),
}

/// What the next word is.
#[derive(Clone, Copy)]
pub(crate) enum Expected {
    /// An operand, an option or `--`.
    Any,
    /// The value of an option.
    Value(OptionName),
    /// An operand: the options have ended.
    Operand,
}

/// A word that was read.
#[derive(Clone, Copy)]
pub(crate) struct Step<'a> {
    /// The token that ends with it, if one does.
    pub token: Option<Token<'a>>,
    /// What the word after it is.
    pub expected: Expected,
}

// Whether a word begins with `-` and isn't `-` alone.
fn is_dashed(word: &str) -> bool
    ensures { result ≡ is_dashed word.now }
{
    matches!(word.as_bytes(), [b'-', _, ..])
}

// Reads `--name=VALUE`.
fn read_joined<'a>(name: &str, value: &'a str) -> Option<Step<'a>>
    ensures { ReadsOption
        (λ others. joined (option_named name.now) value.now (others None)) result }
{
    let option = OptionName::named(name)?;
    if !option.has_value() {
        return None;
    }
    Some(Step {
        token: Some(Token::Given(option, value)),
        expected: Expected::Any,
    })
}

// Reads `--name`.
fn read_alone(name: &str) -> Option<Step<'_>>
    ensures { ReadsOption (λ others. alone (option_named name.now) others) result }
{
    let option = OptionName::named(name)?;
    if option.has_value() {
        return Some(Step {
            token: None,
            expected: Expected::Value(option),
        });
    }
    Some(Step {
        token: Some(Token::Given(option, "")),
        expected: Expected::Any,
    })
}

// Reads a word that begins with `-` and isn't `-` alone: before its first `=` stands a name.
fn read_option(word: &str) -> Option<Step<'_>>
    ensures { ReadsOption (λ others. option_word word.now others) result }
{
    match word.split_once('=') {
        Some((name, value)) => read_joined(name, value),
        None => read_alone(word),
    }
}

/// Reads a word of which this is expected; None where it breaks a rule.
#[tactic(auto, unfolding(crate::specs::Words::tokens))]
pub(crate) fn read_word(expected: Expected, word: &str) -> Option<Step<'_>>
    ensures { Reads expected word.now result }
{
    let (token, expected) = match expected {
        Expected::Operand => (Some(Token::Operand(word)), Expected::Operand),
        Expected::Value(option) if !is_dashed(word) => {
            (Some(Token::Given(option, word)), Expected::Any)
        }
        Expected::Value(_) => return None,
        Expected::Any if word == "--" => (None, Expected::Operand),
        Expected::Any if is_dashed(word) => return read_option(word),
        Expected::Any => (Some(Token::Operand(word)), Expected::Any),
    };
    Some(Step { token, expected })
}
