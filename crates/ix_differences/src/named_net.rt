//! Nets by name.

use ix_num::NameId;

/// A net of a flat design, by the name of its signal. The two constants are themselves in each
/// design.
#[derive(Clone, Copy, PartialEq, Eq)]
pub enum NamedNet {
    /// The net of logic 0.
    Gnd,
    /// The net of logic 1.
    Vcc,
    /// The signal net of a name.
    Signal(NameId),
}
