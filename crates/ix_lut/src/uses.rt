//! The LUT cells of an element.

use crate::table::Table;
use ix_num::NetRef;

/// A LUT cell on a BEL of an element.
#[derive(Clone, Copy)]
pub struct LutUse {
    /// The place of the BEL in the element's shape.
    pub bel: u32,
    /// The cell's truth table.
    pub table: Table,
    /// The net of each of its inputs; past the table's inputs they aren't looked at.
    pub nets: [NetRef; 6],
}

/// The `nth` input of a cell on a net, counted from 0.
#[derive(Clone, Copy)]
pub(crate) struct Item {
    pub(crate) net: NetRef,
    pub(crate) nth: u32,
}

/// The items of an element, at most six for each of its BELs.
#[derive(Clone, Copy)]
pub(crate) struct Items {
    pub(crate) count: usize,
    pub(crate) items: [Item; 48],
}
