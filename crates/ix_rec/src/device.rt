//! The record of a device resources message. Names are numbers of the run's table of names. Tiles,
//! site types, BELs and pins are numbered as their messages list them.

use crate::items::Items;
use ix_num::{BelPinId, NameId, SiteTypeId};
use std::mem::size_of;

/// What a device resources message says.
#[derive(Drop)]
pub struct DeviceRec {
    /// The device's name.
    pub name: NameId,
    /// The site types; a `SiteTypeId` is a place here.
    pub site_type_list: Items<SiteType>,
    /// The tile types.
    pub tile_type_list: Items<TileType>,
    /// The tiles; a `TileId` is a place here.
    pub tile_list: Items<Tile>,
    /// The tile wires that nodes name.
    pub wires: Items<Wire>,
    /// The nodes that join tile wires.
    pub nodes: Items<Node>,
    /// For each cell type, the BELs that take it and its pins there.
    pub cell_bel_map: Items<CellBelMapping>,
    /// The packages.
    pub packages: Items<Package>,
    /// The constant cells and sources; none where the message has none.
    pub constants: Option<Constants>,
    /// The LUT cells and elements.
    pub lut_definitions: LutDefinitions,
}

/// Which way a signal goes through a pin, seen from the thing that has the pin.
#[derive(Clone, Copy, PartialEq, Eq)]
pub enum Direction {
    /// Into it.
    Input,
    /// Out of it.
    Output,
    /// Either way.
    Inout,
}

/// A kind of site.
#[derive(Drop)]
pub struct SiteType {
    /// Its name.
    pub name: NameId,
    /// The pins of its BELs; a `BelPinId` is a place here.
    pub bel_pins: Items<BelPin>,
    /// Its own pins, by which it meets tile wires; a `SitePinId` is a place here.
    pub pins: Items<SitePin>,
    /// Its BELs; a `BelId` is a place here.
    pub bels: Items<Bel>,
    /// The programmable connections inside it.
    pub site_pips: Items<SitePip>,
    /// The wires inside it; a `SiteWireId` is a place here.
    pub site_wires: Items<SiteWire>,
}

/// A pin of a BEL.
#[derive(Drop)]
pub struct BelPin {
    /// Its name.
    pub name: NameId,
    /// Which way a signal goes, seen from the BEL.
    pub dir: Direction,
    /// The name of its BEL.
    pub bel: NameId,
}

/// A pin of a site.
#[derive(Drop)]
pub struct SitePin {
    /// Its name.
    pub name: NameId,
    /// Which way a signal goes, seen from the site.
    pub dir: Direction,
    /// The BEL pin that stands for it inside the site, among the site type's BEL pins.
    pub belpin: BelPinId,
}

/// A basic element of logic: a place for a cell, or a part of the site's routing.
#[derive(Drop)]
pub struct Bel {
    /// Its name.
    pub name: NameId,
    /// What it is for.
    pub category: Category,
    /// Whether it can invert, and by which pins.
    pub inversion: Inversion,
}

/// What a BEL is for.
#[derive(Clone, Copy, PartialEq, Eq)]
pub enum Category {
    /// It holds a cell.
    Logic,
    /// It is a part of the site's routing.
    Routing,
    /// It stands for a pin of the site.
    SitePort,
}

/// Whether a BEL can invert.
#[derive(Clone, Copy)]
pub enum Inversion {
    /// It can't.
    NonInverting,
    /// It can. Both pins are among the site type's BEL pins.
    Inverting {
        /// The pin that passes a signal as it is.
        non_inverting_pin: BelPinId,
        /// The pin that inverts.
        inverting_pin: BelPinId,
    },
}

/// A programmable connection inside a site. Both pins are among the site type's BEL pins.
#[derive(Drop)]
pub struct SitePip {
    /// The pin at which a signal enters.
    pub inpin: BelPinId,
    /// The pin at which it leaves.
    pub outpin: BelPinId,
}

/// A wire inside a site.
#[derive(Drop)]
pub struct SiteWire {
    /// Its name.
    pub name: NameId,
    /// The pins on it, among the site type's BEL pins.
    pub pins: Items<BelPinId>,
}

/// A kind of tile.
#[derive(Drop)]
pub struct TileType {
    /// Its name.
    pub name: NameId,
    /// The types of its sites.
    pub site_types: Items<SiteTypeInTileType>,
    /// The names of its wires; a tile wire of a tile of this type is a place here.
    pub wires: Items<NameId>,
    /// Its PIPs.
    pub pips: Items<Pip>,
    /// The wires that carry a constant.
    pub constants: Items<WireConstantSources>,
}

/// How sites of a type stand in tiles of a type.
#[derive(Drop)]
pub struct SiteTypeInTileType {
    /// The site type.
    pub primary_type: SiteTypeId,
    /// For each pin of the site type, the name of its tile wire.
    pub primary_pins_to_tile_wires: Items<NameId>,
}

/// A programmable connection between two wires of a tile. Both are places in the tile type's list
/// of wires.
#[derive(Drop)]
pub struct Pip {
    /// The wire at which a signal enters.
    pub wire0: u32,
    /// The wire at which it leaves.
    pub wire1: u32,
    /// Whether a signal goes only from `wire0` to `wire1`, and not back too.
    pub directional: bool,
    /// What kind of PIP it is.
    pub kind: PipKind,
}

// A device may have millions of them.
const _: () = prove!(size_of::<Pip>() <= 12);

/// A kind of PIP.
#[derive(Clone, Copy, PartialEq, Eq)]
pub enum PipKind {
    /// An ordinary one.
    Conventional,
    /// One that needs pseudo cells. No net is routed by it.
    PseudoCells,
}

/// A constant, or none, as a message writes it.
#[derive(Clone, Copy, PartialEq, Eq)]
pub enum ConstantPreference {
    /// None.
    NoPreference,
    /// Logic 0.
    Gnd,
    /// Logic 1.
    Vcc,
}

/// The wires of a tile type that carry a constant.
#[derive(Drop)]
pub struct WireConstantSources {
    /// Which one.
    pub constant: ConstantPreference,
    /// The wires, as places in the tile type's list of wires.
    pub wires: Items<u32>,
}

/// A tile.
#[derive(Drop)]
pub struct Tile {
    /// Its name.
    pub name: NameId,
    /// Its type, as a place in the device's list of tile types.
    pub ty: u32,
    /// Its row, from 0. A valid device has none past 65535.
    pub row: u32,
    /// Its column, from 0. A valid device has none past 65535.
    pub col: u32,
    /// Its sites.
    pub sites: Items<Site>,
}

/// A site.
#[derive(Drop)]
pub struct Site {
    /// Its name.
    pub name: NameId,
    /// Its type, as a place in the list of site types of its tile's type.
    pub ty: u32,
}

/// A tile wire, by names.
#[derive(Drop)]
pub struct Wire {
    /// The tile.
    pub tile: NameId,
    /// The wire of the tile's type.
    pub wire: NameId,
}

/// Tile wires that are one piece of metal.
#[derive(Drop)]
pub struct Node {
    /// They, as places in the device's list of wires.
    pub wires: Items<u32>,
}

/// How a cell type fits BELs.
#[derive(Drop)]
pub struct CellBelMapping {
    /// The cell type.
    pub cell: NameId,
    /// The pin maps, each with the BELs for which it holds.
    pub common_pins: Items<CommonCellBelPinMaps>,
}

/// The BELs for which a pin map holds.
#[derive(Drop)]
pub struct CommonCellBelPinMaps {
    /// The BELs, by site type.
    pub site_types: Items<SiteTypeBelEntry>,
    /// The pin map.
    pub pins: Items<CellBelPinEntry>,
}

/// BELs of a site type.
#[derive(Drop)]
pub struct SiteTypeBelEntry {
    /// The site type's name.
    pub site_type: NameId,
    /// The names of the BELs.
    pub bels: Items<NameId>,
}

/// A cell pin and its BEL pin.
#[derive(Drop)]
pub struct CellBelPinEntry {
    /// The cell pin's name.
    pub cell_pin: NameId,
    /// The BEL pin's name.
    pub bel_pin: NameId,
}

/// A package of the device.
#[derive(Drop)]
pub struct Package {
    /// Its name.
    pub name: NameId,
    /// Its pins.
    pub package_pins: Items<PackagePin>,
}

/// A pin of a package.
#[derive(Drop)]
pub struct PackagePin {
    /// Its name.
    pub package_pin: NameId,
    /// The site that it is bonded to.
    pub site: PackagePinSite,
}

/// The site of a package pin.
#[derive(Clone, Copy)]
pub enum PackagePinSite {
    /// None.
    NoSite,
    /// The site of this name.
    Site(NameId),
}

/// The cells and sources of the two constants.
#[derive(Drop)]
pub struct Constants {
    /// The type of the cells that drive logic 0.
    pub gnd_cell_type: NameId,
    /// Their output pin.
    pub gnd_cell_pin: NameId,
    /// The type of the cells that drive logic 1.
    pub vcc_cell_type: NameId,
    /// Their output pin.
    pub vcc_cell_pin: NameId,
    /// The BEL pins that can drive a constant.
    pub site_sources: Items<SiteConstantSource>,
    /// The tile wires that carry a constant.
    pub node_sources: Items<NodeConstantSource>,
}

/// A BEL pin that can drive a constant.
#[derive(Drop)]
pub struct SiteConstantSource {
    /// The site type's name.
    pub site_type: NameId,
    /// The BEL's name.
    pub bel: NameId,
    /// The BEL pin's name.
    pub bel_pin: NameId,
    /// Which constant.
    pub constant: ConstantPreference,
}

/// A tile wire that carries a constant.
#[derive(Drop)]
pub struct NodeConstantSource {
    /// The tile's name.
    pub tile: NameId,
    /// The wire's name.
    pub wire: NameId,
    /// Which constant.
    pub constant: ConstantPreference,
}

/// The LUT cells, and the LUT elements of site types.
#[derive(Drop)]
pub struct LutDefinitions {
    /// The cell types that are LUTs.
    pub lut_cells: Items<LutCell>,
    /// The LUT elements.
    pub lut_elements: Items<SiteTypeLutElements>,
}

/// A cell type that is a LUT.
#[derive(Drop)]
pub struct LutCell {
    /// How its function is given.
    pub equation: LutEquation,
    /// The cell type's name.
    pub cell: NameId,
    /// The names of its inputs, the least significant first.
    pub input_pins: Items<NameId>,
    /// The name of the property that holds the truth table. It is read with either equation.
    pub init_param: NameId,
}

/// How the function of a LUT cell is given.
#[derive(Clone, Copy, PartialEq, Eq)]
pub enum LutEquation {
    /// Not at all.
    Invalid,
    /// By the property that `init_param` names.
    InitParam,
}

/// The LUT elements of a site type.
#[derive(Drop)]
pub struct SiteTypeLutElements {
    /// The site type's name.
    pub site: NameId,
    /// Its elements.
    pub luts: Items<LutElement>,
}

/// A memory of truth table bits that some BELs read.
#[derive(Drop)]
pub struct LutElement {
    /// How many bits there are. A valid device has 1 to 64.
    pub width: u32,
    /// The BELs that read them.
    pub bels: Items<LutBel>,
}

/// A BEL of a LUT element.
#[derive(Drop)]
pub struct LutBel {
    /// The first bit that it reads, from 0.
    pub low_bit: u32,
    /// The last bit that it reads.
    pub high_bit: u32,
    /// The BEL's name.
    pub name: NameId,
    /// The names of its inputs, the least significant first.
    pub input_pins: Items<NameId>,
    /// The name of its output.
    pub output_pin: NameId,
}
