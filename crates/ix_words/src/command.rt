//! The commands.

ghost use Rattle.std.specs.Prelude.{◌≡◌};
ghost use Rattle.std.specs.List.{list_any};
ghost use Rattle.ix_words.specs.Tasks.{command_named, is_same, shape_of};

use crate::options::OptionName;

/// What the words of a command line ask for. Files are named by operands; an option that isn't
/// given is None.
#[derive(Clone, Copy)]
pub enum Command<'a> {
    /// `pack`: the names of a device, a design, and the packing to write.
    Pack {
        device: &'a str,
        design: &'a str,
        packed: &'a str,
    },
    /// `place`: the names of a device, a design, its packing, and the placement to write.
    Place {
        device: &'a str,
        design: &'a str,
        packed: &'a str,
        placed: &'a str,
        /// `--seed`.
        seed: Option<u64>,
        /// `--moves`, at most 10000.
        moves: Option<u32>,
    },
    /// `route`: the names of a device, a design, its placement, and the netlist to write.
    Route {
        device: &'a str,
        design: &'a str,
        placed: &'a str,
        routed: &'a str,
        /// `--rounds`, 1 to 1000.
        rounds: Option<u32>,
    },
    /// `check`: the names of a device, a design, and a physical netlist.
    Check {
        device: &'a str,
        design: &'a str,
        physical: &'a str,
        /// Whether `--placed` is given.
        is_placed: bool,
    },
    /// `flow`: the names of a device, a design, and the netlist to write.
    Flow {
        device: &'a str,
        design: &'a str,
        routed: &'a str,
        /// `--seed`.
        seed: Option<u64>,
        /// `--moves`, at most 10000.
        moves: Option<u32>,
        /// `--rounds`, 1 to 1000.
        rounds: Option<u32>,
        /// `--trials`, 1 to 16.
        trials: Option<u32>,
    },
    /// `demo`: a size from 1 to 16, and the names of the device and the design to write, which
    /// differ.
    Demo {
        size: u32,
        device: &'a str,
        design: &'a str,
    },
}

/// The name of a command.
#[derive(Clone, Copy)]
pub(crate) enum CommandName {
    Pack,
    Place,
    Route,
    Check,
    Flow,
    Demo,
}

impl CommandName {
    /// The command that a word names.
    pub fn named(word: &str) -> Option<CommandName>
        ensures { result ≡ command_named word.now }
    {
        match word {
            "pack" => Some(CommandName::Pack),
            "place" => Some(CommandName::Place),
            "route" => Some(CommandName::Route),
            "check" => Some(CommandName::Check),
            "flow" => Some(CommandName::Flow),
            "demo" => Some(CommandName::Demo),
            _ => None,
        }
    }

    /// The number of its operands.
    pub fn operand_count(self) -> usize
        ensures { result ≡ (shape_of self).operands }
    {
        match self {
            CommandName::Place | CommandName::Route => 4,
            CommandName::Pack | CommandName::Check | CommandName::Flow | CommandName::Demo => 3,
        }
    }

    /// Whether it has an option.
    pub fn has_option(self, option: OptionName) -> bool
        ensures { result ≡ list_any (is_same option) (shape_of self).options }
    {
        match self {
            CommandName::Pack | CommandName::Demo => false,
            CommandName::Place => matches!(option, OptionName::Seed | OptionName::Moves),
            CommandName::Route => matches!(option, OptionName::Rounds),
            CommandName::Check => matches!(option, OptionName::Placed),
            CommandName::Flow => !matches!(option, OptionName::Placed),
        }
    }
}
