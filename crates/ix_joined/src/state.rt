//! What is on a net.

ghost use Rattle.std.specs.Prelude.{◌≡◌, ◌&&◌, is_none};
ghost use Rattle.ix_joined.specs.Roles.{nothing, with_role};

use crate::pin::Role;
use ix_num::Constant;

/// What is on a net.
#[derive(Clone, Copy)]
pub struct NetState {
    /// Whether it has a driver.
    pub driven: bool,
    /// Whether it has two.
    pub driven_twice: bool,
    /// Whether it has a sink.
    pub has_sink: bool,
    /// A constant that drives it.
    pub constant: Option<Constant>,
}

impl NetState {
    /// The state of a net with no pin.
    pub fn nothing() -> NetState
        ensures { result ≡ nothing }
    {
        NetState {
            driven: false,
            driven_twice: false,
            has_sink: false,
            constant: None,
        }
    }

    /// The state with a further pin.
    pub fn with(self, role: Role) -> NetState
        ensures { result ≡ with_role self role }
    {
        match role {
            Role::Driver => NetState {
                driven: true,
                driven_twice: self.driven_twice || self.driven,
                has_sink: self.has_sink,
                constant: self.constant,
            },
            Role::Constant(constant) => NetState {
                driven: true,
                driven_twice: self.driven_twice || self.driven,
                has_sink: self.has_sink,
                constant: Some(constant),
            },
            Role::Sink => NetState {
                driven: self.driven,
                driven_twice: self.driven_twice,
                has_sink: true,
                constant: self.constant,
            },
            Role::Nothing => self,
        }
    }

    /// Whether it is a signal net of the flat design, where no rule is broken.
    pub fn is_signal(&self) -> bool
        ensures { result ≡ (self.now.has_sink && is_none self.now.constant) }
    {
        self.has_sink && self.constant.is_none()
    }
}
