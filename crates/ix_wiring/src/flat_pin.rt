//! A pin of a flat design.

use ix_num::{CellId, NameId, NetRef};

/// A pin of a cell that is on a net.
#[derive(Clone, Copy)]
pub struct FlatPin {
    /// The cell, by its place among the cells of the flat design.
    pub cell: CellId,
    /// The pin's name.
    pub pin: NameId,
    /// The net.
    pub net: NetRef,
    /// Whether the pin drives its net, other than with a constant.
    pub drives: bool,
}
