//! How far a physical netlist has come.

/// The stage at which a netlist is judged.
#[derive(Clone, Copy, PartialEq, Eq)]
pub enum Level {
    /// Cells are placed, and nets may have stubs.
    Placed,
    /// Nets are routed.
    Routed,
}
