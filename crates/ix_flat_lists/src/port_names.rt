//! The names that port cells have.

ghost use Rattle.std.specs.Prelude.{◌≡◌};
ghost use Rattle.ix_flat_lists.specs.Listed.{type_towards};

use ix_num::NameId;
use ix_rec::Direction;

/// The names that port cells have.
#[derive(Clone, Copy)]
pub struct PortNames {
    /// The type of the cells of inputs.
    pub input: NameId,
    /// The type of the cells of outputs.
    pub output: NameId,
    /// Their pin.
    pub pin: NameId,
}

impl PortNames {
    /// The type of the cells of a direction; none where there are none.
    pub fn of(&self, dir: Direction) -> Option<NameId>
        ensures { result ≡ type_towards self.now dir }
    {
        match dir {
            Direction::Input => Some(self.input),
            Direction::Output => Some(self.output),
            Direction::Inout => None,
        }
    }
}
