//! The bits of the top's ports.

use ix_rec::Direction;

/// A bit of a port of the top.
#[derive(Clone, Copy)]
pub struct TopBit {
    /// The port.
    pub port: u32,
    /// The bit's index.
    pub index: u32,
    /// The port's direction.
    pub dir: Direction,
    /// The first occurrence of the net that it is on.
    pub net: Option<u32>,
}
