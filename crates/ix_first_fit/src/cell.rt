//! The place that a cell takes.

use ix_num::{BelId, SiteId};

/// A BEL of a site: a place for one cell.
#[derive(Clone, Copy)]
pub struct Spot {
    /// The site.
    pub site: SiteId,
    /// The BEL, by its number in the site's type.
    pub bel: BelId,
}
