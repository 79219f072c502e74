//! The record of a packed design message. Names are numbers of the run's table of names.

use crate::items::Items;
use ix_num::NameId;

/// What a packed design message says.
#[derive(Drop)]
pub struct PackedRec {
    /// The clusters, in the order in which they were opened.
    pub clusters: Items<PackedCluster>,
}

/// A cluster, by names.
#[derive(Drop)]
pub struct PackedCluster {
    /// The site type's name.
    pub site_type: NameId,
    /// The cells, in the order in which they were taken.
    pub cells: Items<PackedCell>,
}

/// A cell of a cluster, by names.
#[derive(Drop)]
pub struct PackedCell {
    /// The cell's name.
    pub cell: NameId,
    /// The BEL's name.
    pub bel: NameId,
}
