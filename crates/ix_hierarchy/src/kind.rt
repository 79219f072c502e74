//! What an instance of a declaration is.

use ix_num::Constant;

/// What an instance of a declaration is.
#[derive(Clone, Copy)]
pub enum Kind {
    /// It has an inside: the cell of this number in the netlist's list.
    Inside(u32),
    /// A leaf that stands for a constant.
    Constant(Constant),
    /// A leaf of another type that the device has.
    Plain,
    /// A leaf of a type that the device doesn't have.
    Unknown,
}
