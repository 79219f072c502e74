//! What is kept of words: operands and options.

ghost use Rattle.std.specs.Prelude.{◌≡◌, ◌≤◌, ◌<◌, ℕ, List, [], ◌∷◌, ◌++◌, length};
ghost use Rattle.std.specs.Prelude.{nat_le, if◌then◌else◌};
ghost use Rattle.ix_words.specs.Words.{operand as operand_token, given as option_token};
ghost use Rattle.ix_words.specs.Reading.{token_view};
ghost use Rattle.ix_words.specs.Arguments.{Adds, AreArguments, AreValues, IsOperand, TellsFit};

use crate::command::CommandName;
use crate::options::OptionName;
use crate::token::Token;

/// The most operands of a command.
const MOST_OPERANDS: usize = 4;

/// How often an option stands, and its value where it stands once.
#[derive(Clone, Copy)]
pub(crate) enum Given<'a> {
    Never,
    Once(&'a str),
    Again,
}

impl<'a> Given<'a> {
    /// The same after it stands once more, with this value.
    pub fn with_value(self, value: &'a str) -> Given<'a>
        ensures { (values : List (List ℕ)) → AreValues self.entry values
            → AreValues result (values ++ value.now ∷ []) }
    {
        match self {
            Given::Never => Given::Once(value),
            Given::Once(_) | Given::Again => Given::Again,
        }
    }

    /// Whether it stands at all.
    pub fn is_given(self) -> bool
        ensures { (values : List (List ℕ)) → AreValues self.entry values
            → result ≡ nat_le 1 (length values) }
    {
        !matches!(self, Given::Never)
    }

    /// Whether it stands no more often than it may, which is once where a command has it.
    pub fn is_allowed(self, is_had: bool) -> bool
        ensures { (values : List (List ℕ)) → AreValues self.entry values
            → result ≡ nat_le (length values) (if is_had then 1 else 0) }
    {
        match self {
            Given::Never => true,
            Given::Once(_) => is_had,
            Given::Again => false,
        }
    }
}

/// The operands and options among words.
#[derive(Clone, Copy)]
pub(crate) struct Arguments<'a> {
    /// The first four operands; empty texts where there are fewer.
    pub operands: [&'a str; MOST_OPERANDS],
    /// The number of operands, or 5 where there are more than four.
    pub count: usize,
    pub seed: Given<'a>,
    pub moves: Given<'a>,
    pub rounds: Given<'a>,
    pub trials: Given<'a>,
    pub placed: Given<'a>,
}

impl<'a> Arguments<'a> {
    /// What is kept of no words.
    pub fn new() -> Arguments<'a>
        ensures { AreArguments result [] }
    {
        Arguments {
            operands: [""; MOST_OPERANDS],
            count: 0,
            seed: Given::Never,
            moves: Given::Never,
            rounds: Given::Never,
            trials: Given::Never,
            placed: Given::Never,
        }
    }

    // Keeps one operand more.
    fn add_operand(&mut self, operand: &'a str)
        ensures { Adds (operand_token operand.now) self.old self.new }
    {
        if self.count < MOST_OPERANDS {
            self.operands[self.count] = operand;
            self.count += 1;
        } else {
            self.count = MOST_OPERANDS + 1;
        }
    }

    // Keeps one more option with its value.
    fn add_option(&mut self, option: OptionName, value: &'a str)
        ensures { Adds (option_token option value.now) self.old self.new }
    {
        match option {
            OptionName::Seed => self.seed = self.seed.with_value(value),
            OptionName::Moves => self.moves = self.moves.with_value(value),
            OptionName::Rounds => self.rounds = self.rounds.with_value(value),
            OptionName::Trials => self.trials = self.trials.with_value(value),
            OptionName::Placed => self.placed = self.placed.with_value(value),
        }
    }

    /// Keeps one token more.
    pub fn add(&mut self, token: Token<'a>)
        ensures { Adds (token_view token.entry) self.old self.new }
    {
        match token {
            Token::Operand(text) => self.add_operand(text),
            Token::Given(option, value) => self.add_option(option, value),
        }
    }

    /// The operand of this number, from 0.
    pub fn operand(&self, number: usize) -> &'a str
        requires { number < 4 }
        ensures { IsOperand self.now number result.now }
    {
        self.operands[number]
    }

    /// Whether there are as many operands as a command has, and each option stands as often as it
    /// may.
    pub fn fit(&self, command: CommandName) -> bool
        ensures { TellsFit command self.now result }
    {
        self.count == command.operand_count()
            && self.seed.is_allowed(command.has_option(OptionName::Seed))
            && self.moves.is_allowed(command.has_option(OptionName::Moves))
            && self
                .rounds
                .is_allowed(command.has_option(OptionName::Rounds))
            && self
                .trials
                .is_allowed(command.has_option(OptionName::Trials))
            && self
                .placed
                .is_allowed(command.has_option(OptionName::Placed))
    }
}
