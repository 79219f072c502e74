//! The record of a physical netlist message. Names are numbers of the run's table of names.

use crate::forest::Forest;
use crate::items::Items;
use ix_num::NameId;
use std::mem::size_of;

/// What a physical netlist message says.
#[derive(Drop)]
pub struct Phys {
    /// The device's name.
    pub part: NameId,
    /// Where each cell is placed.
    pub placements: Items<CellPlacement>,
    /// The nets.
    pub nets: Items<PhysNet>,
    /// The sites in use, with the types that they are used as.
    pub site_insts: Items<SiteInstance>,
    /// The properties, among them the tables of LUT elements.
    pub properties: Items<Property>,
}

/// Where a cell is placed.
#[derive(Drop)]
pub struct CellPlacement {
    /// The cell's name.
    pub cell_name: NameId,
    /// The cell's type.
    pub ty: NameId,
    /// The site's name.
    pub site: NameId,
    /// The BEL's name.
    pub bel: NameId,
    /// Which BEL pin each cell pin is on.
    pub pin_map: Items<PinMapping>,
}

/// A cell pin and its BEL pin.
#[derive(Drop)]
pub struct PinMapping {
    /// The cell pin's name.
    pub cell_pin: NameId,
    /// The name of the BEL pin's BEL.
    pub bel: NameId,
    /// The BEL pin's name.
    pub bel_pin: NameId,
}

/// A net, with its wiring as trees.
#[derive(Drop)]
pub struct PhysNet {
    /// Its name.
    pub name: NameId,
    /// Whether it carries a signal or a constant.
    pub ty: NetType,
    /// The trees that begin at what drives the net.
    pub sources: Forest,
    /// The trees that nothing drives yet.
    pub stubs: Forest,
}

/// What a net carries.
#[derive(Clone, Copy, PartialEq, Eq)]
pub enum NetType {
    /// A signal.
    Signal,
    /// Logic 0.
    Gnd,
    /// Logic 1.
    Vcc,
}

/// A piece of a net's wiring: a route branch without the branches that follow it.
#[derive(Clone, Copy)]
pub struct Segment {
    /// What kind of piece it is, which says what the three names are.
    pub kind: BranchKind,
    /// Whether a PIP is used from `wire0` to `wire1`. At another kind it is kept, and no rule asks
    /// it.
    pub forward: bool,
    /// The name of the site, or at a PIP of the tile.
    pub first: NameId,
    /// The name of the BEL, at a site pin of the pin, at a PIP of `wire0`.
    pub second: NameId,
    /// The name of the BEL pin, at a PIP of `wire1`, at a site PIP of its input pin. At a site pin
    /// it isn't looked at.
    pub third: NameId,
}

// A routed netlist may have millions of them.
const _: () = prove!(size_of::<Segment>() <= 16);

/// A kind of segment.
#[derive(Clone, Copy, PartialEq, Eq)]
pub enum BranchKind {
    /// A pin of a BEL, on its site wire.
    BelPin,
    /// A pin of a site, between its site wire and its tile wire.
    SitePin,
    /// A PIP, between two tile wires.
    Pip,
    /// A site PIP, between two site wires.
    SitePip,
}

/// A site in use.
#[derive(Drop)]
pub struct SiteInstance {
    /// Its name.
    pub site: NameId,
    /// The name of the site type that it is used as.
    pub ty: NameId,
}

/// A property.
#[derive(Drop)]
pub struct Property {
    /// Its key.
    pub key: NameId,
    /// Its value.
    pub value: NameId,
}
