//! What the numbers of a physical netlist are asked against.

use ix_take::Context;

/// What the numbers of a physical netlist are asked against: the string table alone.
#[derive(Drop)]
pub struct PhysContext<'n> {
    /// The string table and the names.
    pub texts: Context<'n>,
}
