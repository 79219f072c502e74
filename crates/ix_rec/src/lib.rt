//! The records that crates hand to one another.
#![tactic(auto)]

mod device;
mod fault;
mod flow;
mod forest;
mod items;
mod maps;
mod netlist;
mod packed;
mod phys;
mod place;
mod text;

pub use device::{
    Bel, BelPin, Category, CellBelMapping, CellBelPinEntry, CommonCellBelPinMaps,
    ConstantPreference, Constants, DeviceRec, Direction, Inversion, LutBel, LutCell,
    LutDefinitions, LutElement, LutEquation, Node, NodeConstantSource, Package, PackagePin,
    PackagePinSite, Pip, PipKind, Site, SiteConstantSource, SitePin, SitePip, SiteType,
    SiteTypeBelEntry, SiteTypeInTileType, SiteTypeLutElements, SiteWire, Tile, TileType, Wire,
    WireConstantSources,
};
pub use fault::ReadFault;
pub use flow::{
    CellPin, Cluster, ClusterCell, ElementTable, Flat, FlatCell, FlatNet, Groups, LutChoice,
    Packing, Placement, SitePlan, SiteSegment, SiteTree, TruthTable,
};
pub use forest::{Branch, Forest};
pub use items::Items;
pub use maps::{CellMap, PinMap};
pub use netlist::{
    Cell, CellDeclaration, CellInstance, Entry, Net, NetlistRec, Port, PortIndexing, PortInstance,
    PortKind, PortOwner, PropertyMap, PropertyValue,
};
pub use packed::{PackedCell, PackedCluster, PackedRec};
pub use phys::{
    BranchKind, CellPlacement, NetType, Phys, PhysNet, PinMapping, Property, Segment, SiteInstance,
};
pub use place::{File, Place, Rule};
pub use text::{Bytes, Word};
