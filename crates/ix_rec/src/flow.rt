//! The records of the flow: a flat design, its packing into clusters, and their placement.

ghost use Rattle.std.specs.Prelude.{◌≡◌, length};

use crate::forest::Forest;
use crate::items::Items;
use crate::maps::{CellMap, PinMap};
use ix_num::{BelId, BelPinId, CellId, NameId, NetRef, SiteId, SitePinId, SiteTypeId};

/// A design without hierarchy.
#[derive(Drop)]
pub struct Flat {
    /// The cells, the port cells first; a `CellId` is a place here.
    pub cells: Items<FlatCell>,
    /// How many of the cells are port cells. An extracted design tells none apart and has 0 here.
    pub ports: u32,
    /// The signal nets; a `NetId` is a place here.
    pub nets: Items<FlatNet>,
    /// The net of each pin that is on one.
    pub pins: PinMap<NetRef>,
    /// The truth table of each LUT cell.
    pub tables: CellMap<TruthTable>,
    /// The site of each cell that is fixed to one.
    pub fixed: CellMap<SiteId>,
}

/// A cell of a flat design.
#[derive(Drop)]
pub struct FlatCell {
    /// Its flat name.
    pub name: NameId,
    /// Its type.
    pub ty: NameId,
}

/// A signal net of a flat design.
#[derive(Drop)]
pub struct FlatNet {
    /// Its flat name.
    pub name: NameId,
    /// The pin that drives it. An extracted design leaves it out.
    pub driver: Option<CellPin>,
}

/// A pin of a cell of a flat design.
#[derive(Clone, Copy)]
pub struct CellPin {
    /// The cell.
    pub cell: CellId,
    /// The pin's name.
    pub pin: NameId,
}

/// The function of a LUT cell.
#[derive(Clone, Copy)]
pub struct TruthTable {
    /// Bit `n` is the output where the inputs, input 0 least significant, spell `n`. There are
    /// `2^inputs` bits, and those above are 0.
    pub bits: u64,
    /// How many inputs there are, 1 to 6.
    pub inputs: u32,
}

/// Cells that share a site.
#[derive(Drop)]
pub struct Cluster {
    /// The type of the site.
    pub site_type: SiteTypeId,
    /// The cells, in the order in which they were taken.
    pub cells: Items<ClusterCell>,
}

/// A cell of a cluster.
#[derive(Drop)]
pub struct ClusterCell {
    /// Its BEL.
    pub bel: BelId,
    /// The cell.
    pub cell: CellId,
}

/// How a cluster is wired inside its site.
#[derive(Drop)]
pub struct SitePlan {
    /// For each LUT cell, which BEL pins its inputs are on.
    pub choices: Items<LutChoice>,
    /// For each element with a LUT cell, its bits.
    pub tables: Items<ElementTable>,
    /// The trees, in the order in which they were begun.
    pub trees: Items<SiteTree>,
}

/// The BEL pins of a LUT cell's inputs.
#[derive(Drop)]
pub struct LutChoice {
    /// The cell.
    pub cell: CellId,
    /// The BEL pin of each input, the least significant first.
    pub pins: Items<BelPinId>,
}

/// The bits of a LUT element.
#[derive(Drop)]
pub struct ElementTable {
    /// The element's number in its site type.
    pub element: u32,
    /// The bits; those past the element's width are 0.
    pub bits: u64,
}

/// A tree of a net inside a site.
#[derive(Drop)]
pub struct SiteTree {
    /// The net.
    pub net: NetRef,
    /// Whether it begins at a site pin at which the net enters the site.
    pub stub: bool,
    /// Its segments.
    pub segments: Forest<SiteSegment>,
}

/// A segment inside a site, by its number in the site type.
#[derive(Clone, Copy)]
pub enum SiteSegment {
    /// A pin of a BEL.
    BelPin(BelPinId),
    /// A pin of the site.
    SitePin(SitePinId),
    /// A site PIP, as a place in the site type's list of site PIPs.
    SitePip(u32),
}

/// The clusters of a design, each with its plan.
#[derive(Drop)]
pub struct Packing {
    /// The clusters, in the order in which they were opened.
    pub clusters: Items<Cluster>,
    /// Their plans, place by place.
    pub plans: Items<SitePlan>,
    pub ghost a_plan_each: { length clusters ≡ length plans },
}

/// Where the clusters stand.
#[derive(Drop)]
pub struct Placement {
    /// The site of each cluster.
    pub sites: Items<SiteId>,
}

/// Groups of cells that are packed together, in the order in which they are taken.
pub type Groups = Items<Items<CellId>>;
