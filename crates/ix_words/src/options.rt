//! The options of all commands.

ghost use Rattle.std.specs.Prelude.{◌≡◌};
ghost use Rattle.ix_words.specs.Tasks.{greatest, least};
ghost use Rattle.ix_words.specs.Words.{has_value, option_named};

/// An option.
#[derive(Clone, Copy)]
pub(crate) enum OptionName {
    Seed,
    Moves,
    Rounds,
    Trials,
    Placed,
}

impl OptionName {
    /// The option of a name, which isn't shortened.
    pub fn named(name: &str) -> Option<OptionName>
        ensures { result ≡ option_named name.now }
    {
        match name {
            "--seed" => Some(OptionName::Seed),
            "--moves" => Some(OptionName::Moves),
            "--rounds" => Some(OptionName::Rounds),
            "--trials" => Some(OptionName::Trials),
            "--placed" => Some(OptionName::Placed),
            _ => None,
        }
    }

    /// Whether it has a value. One that has none is a flag.
    pub fn has_value(self) -> bool
        ensures { result ≡ has_value self }
    {
        !matches!(self, OptionName::Placed)
    }

    /// The least number that it takes.
    pub fn least(self) -> u64
        ensures { result ≡ least self }
    {
        match self {
            OptionName::Rounds | OptionName::Trials => 1,
            OptionName::Seed | OptionName::Moves | OptionName::Placed => 0,
        }
    }

    /// The greatest number that it takes.
    pub fn greatest(self) -> u64
        ensures { result ≡ greatest self }
    {
        match self {
            OptionName::Moves => 10_000,
            OptionName::Rounds => 1000,
            OptionName::Trials => 16,
            OptionName::Seed | OptionName::Placed => u64::MAX,
        }
    }
}
