//! How much a tile holds.

/// How many wires and directed PIPs a tile has.
#[derive(Clone, Copy)]
pub struct Size {
    /// The wires.
    pub wires: u64,
    /// The directed PIPs, or 2^64 - 1 where there are more.
    pub pips: u64,
}
