//! The cells and the signal nets.

use ix_num::NameId;
use ix_rec::FlatCell;

/// The cells and the signal nets.
#[derive(Drop)]
pub struct Named {
    /// The cells, the port cells first.
    pub cells: Vec<FlatCell>,
    /// How many are port cells.
    pub ports: u32,
    /// The instances of the others, by their numbers in preorder.
    pub leaves: Vec<u32>,
    /// The first occurrences of the signal nets.
    pub signals: Vec<u32>,
    /// And their names.
    pub net_names: Vec<NameId>,
}
