//! The record of a device in words: each struct's data fields in order, then what is behind its
//! pointers, a list by its length and its items in brackets.

use crate::texts::{put_count, put_end, put_name, put_names, put_number, put_numbers};
use ix_num::BelPinId;
use ix_rec::{
    Bel, BelPin, Category, CellBelMapping, CellBelPinEntry, CommonCellBelPinMaps,
    ConstantPreference, Constants, DeviceRec, Direction, Inversion, Items, LutBel, LutCell,
    LutDefinitions, LutElement, LutEquation, Node, NodeConstantSource, Package, PackagePin,
    PackagePinSite, Pip, PipKind, Site, SiteConstantSource, SitePin, SitePip, SiteType,
    SiteTypeBelEntry, SiteTypeInTileType, SiteTypeLutElements, SiteWire, Tile, TileType, Wire,
    WireConstantSources,
};
use ix_strings::Names;
use std::alloc::AllocError;

/// What is written of a struct of a device.
trait InWords {
    fn put(&self, text: &mut String, names: &Names) -> Result<(), AllocError>;
}

/// Writes a list: its length, then each item.
fn put_list<T: InWords>(
    text: &mut String,
    names: &Names,
    list: &Items<T>,
) -> Result<(), AllocError> {
    put_count(text, list.len())?;
    for i in 0..list.len() {
        list.at(i).put(text, names)?;
    }
    put_end(text)
}

impl InWords for BelPinId {
    fn put(&self, text: &mut String, _names: &Names) -> Result<(), AllocError> {
        put_number(text, self.get())
    }
}

fn put_direction(text: &mut String, dir: Direction) -> Result<(), AllocError> {
    match dir {
        Direction::Input => text.push_str("input "),
        Direction::Output => text.push_str("output "),
        Direction::Inout => text.push_str("inout "),
    }
}

fn put_category(text: &mut String, category: Category) -> Result<(), AllocError> {
    match category {
        Category::Logic => text.push_str("logic "),
        Category::Routing => text.push_str("routing "),
        Category::SitePort => text.push_str("sitePort "),
    }
}

fn put_constant(text: &mut String, constant: ConstantPreference) -> Result<(), AllocError> {
    match constant {
        ConstantPreference::NoPreference => text.push_str("noPreference "),
        ConstantPreference::Gnd => text.push_str("gnd "),
        ConstantPreference::Vcc => text.push_str("vcc "),
    }
}

fn put_pin(text: &mut String, pin: BelPinId) -> Result<(), AllocError> {
    put_number(text, pin.get())
}

impl InWords for BelPin {
    fn put(&self, text: &mut String, names: &Names) -> Result<(), AllocError> {
        put_name(text, names, self.name)?;
        put_direction(text, self.dir)?;
        put_name(text, names, self.bel)
    }
}

impl InWords for SitePin {
    fn put(&self, text: &mut String, names: &Names) -> Result<(), AllocError> {
        put_name(text, names, self.name)?;
        put_direction(text, self.dir)?;
        put_pin(text, self.belpin)
    }
}

fn put_inversion(text: &mut String, inversion: Inversion) -> Result<(), AllocError> {
    match inversion {
        Inversion::NonInverting => text.push_str("nonInverting "),
        Inversion::Inverting {
            non_inverting_pin,
            inverting_pin,
        } => {
            text.push_str("inverting ")?;
            put_pin(text, non_inverting_pin)?;
            put_pin(text, inverting_pin)
        }
    }
}

impl InWords for Bel {
    fn put(&self, text: &mut String, names: &Names) -> Result<(), AllocError> {
        put_name(text, names, self.name)?;
        put_category(text, self.category)?;
        put_inversion(text, self.inversion)
    }
}

impl InWords for SitePip {
    fn put(&self, text: &mut String, _names: &Names) -> Result<(), AllocError> {
        put_pin(text, self.inpin)?;
        put_pin(text, self.outpin)
    }
}

impl InWords for SiteWire {
    fn put(&self, text: &mut String, names: &Names) -> Result<(), AllocError> {
        put_name(text, names, self.name)?;
        put_list(text, names, &self.pins)
    }
}

impl InWords for SiteType {
    fn put(&self, text: &mut String, names: &Names) -> Result<(), AllocError> {
        put_name(text, names, self.name)?;
        put_list(text, names, &self.bel_pins)?;
        put_list(text, names, &self.pins)?;
        put_list(text, names, &self.bels)?;
        put_list(text, names, &self.site_pips)?;
        put_list(text, names, &self.site_wires)
    }
}

impl InWords for SiteTypeInTileType {
    fn put(&self, text: &mut String, names: &Names) -> Result<(), AllocError> {
        put_number(text, self.primary_type.get())?;
        put_names(text, names, &self.primary_pins_to_tile_wires)
    }
}

impl InWords for Pip {
    fn put(&self, text: &mut String, _names: &Names) -> Result<(), AllocError> {
        put_number(text, self.wire0)?;
        put_number(text, self.wire1)?;
        text.push_str(if self.directional {
            "one way "
        } else {
            "both ways "
        })?;
        match self.kind {
            PipKind::Conventional => text.push_str("conventional "),
            PipKind::PseudoCells => text.push_str("pseudoCells "),
        }
    }
}

impl InWords for WireConstantSources {
    fn put(&self, text: &mut String, _names: &Names) -> Result<(), AllocError> {
        put_constant(text, self.constant)?;
        put_numbers(text, &self.wires)
    }
}

impl InWords for TileType {
    fn put(&self, text: &mut String, names: &Names) -> Result<(), AllocError> {
        put_name(text, names, self.name)?;
        put_list(text, names, &self.site_types)?;
        put_names(text, names, &self.wires)?;
        put_list(text, names, &self.pips)?;
        put_list(text, names, &self.constants)
    }
}

impl InWords for Site {
    fn put(&self, text: &mut String, names: &Names) -> Result<(), AllocError> {
        put_name(text, names, self.name)?;
        put_number(text, self.ty)
    }
}

impl InWords for Tile {
    fn put(&self, text: &mut String, names: &Names) -> Result<(), AllocError> {
        put_name(text, names, self.name)?;
        put_number(text, self.ty)?;
        put_number(text, self.row)?;
        put_number(text, self.col)?;
        put_list(text, names, &self.sites)
    }
}

impl InWords for Wire {
    fn put(&self, text: &mut String, names: &Names) -> Result<(), AllocError> {
        put_name(text, names, self.tile)?;
        put_name(text, names, self.wire)
    }
}

impl InWords for Node {
    fn put(&self, text: &mut String, _names: &Names) -> Result<(), AllocError> {
        put_numbers(text, &self.wires)
    }
}

impl InWords for SiteTypeBelEntry {
    fn put(&self, text: &mut String, names: &Names) -> Result<(), AllocError> {
        put_name(text, names, self.site_type)?;
        put_names(text, names, &self.bels)
    }
}

impl InWords for CellBelPinEntry {
    fn put(&self, text: &mut String, names: &Names) -> Result<(), AllocError> {
        put_name(text, names, self.cell_pin)?;
        put_name(text, names, self.bel_pin)
    }
}

impl InWords for CommonCellBelPinMaps {
    fn put(&self, text: &mut String, names: &Names) -> Result<(), AllocError> {
        put_list(text, names, &self.site_types)?;
        put_list(text, names, &self.pins)
    }
}

impl InWords for CellBelMapping {
    fn put(&self, text: &mut String, names: &Names) -> Result<(), AllocError> {
        put_name(text, names, self.cell)?;
        put_list(text, names, &self.common_pins)
    }
}

impl InWords for PackagePin {
    fn put(&self, text: &mut String, names: &Names) -> Result<(), AllocError> {
        put_name(text, names, self.package_pin)?;
        match self.site {
            PackagePinSite::NoSite => text.push_str("noSite "),
            PackagePinSite::Site(site) => {
                text.push_str("site ")?;
                put_name(text, names, site)
            }
        }
    }
}

impl InWords for Package {
    fn put(&self, text: &mut String, names: &Names) -> Result<(), AllocError> {
        put_name(text, names, self.name)?;
        put_list(text, names, &self.package_pins)
    }
}

impl InWords for SiteConstantSource {
    fn put(&self, text: &mut String, names: &Names) -> Result<(), AllocError> {
        put_name(text, names, self.site_type)?;
        put_name(text, names, self.bel)?;
        put_name(text, names, self.bel_pin)?;
        put_constant(text, self.constant)
    }
}

impl InWords for NodeConstantSource {
    fn put(&self, text: &mut String, names: &Names) -> Result<(), AllocError> {
        put_name(text, names, self.tile)?;
        put_name(text, names, self.wire)?;
        put_constant(text, self.constant)
    }
}

fn put_constants(text: &mut String, names: &Names, r: &Constants) -> Result<(), AllocError> {
    put_name(text, names, r.gnd_cell_type)?;
    put_name(text, names, r.gnd_cell_pin)?;
    put_name(text, names, r.vcc_cell_type)?;
    put_name(text, names, r.vcc_cell_pin)?;
    put_list(text, names, &r.site_sources)?;
    put_list(text, names, &r.node_sources)
}

impl InWords for LutCell {
    fn put(&self, text: &mut String, names: &Names) -> Result<(), AllocError> {
        match self.equation {
            LutEquation::Invalid => text.push_str("invalid ")?,
            LutEquation::InitParam => text.push_str("initParam ")?,
        }
        put_name(text, names, self.cell)?;
        put_names(text, names, &self.input_pins)?;
        put_name(text, names, self.init_param)
    }
}

impl InWords for LutBel {
    fn put(&self, text: &mut String, names: &Names) -> Result<(), AllocError> {
        put_number(text, self.low_bit)?;
        put_number(text, self.high_bit)?;
        put_name(text, names, self.name)?;
        put_names(text, names, &self.input_pins)?;
        put_name(text, names, self.output_pin)
    }
}

impl InWords for LutElement {
    fn put(&self, text: &mut String, names: &Names) -> Result<(), AllocError> {
        put_number(text, self.width)?;
        put_list(text, names, &self.bels)
    }
}

impl InWords for SiteTypeLutElements {
    fn put(&self, text: &mut String, names: &Names) -> Result<(), AllocError> {
        put_name(text, names, self.site)?;
        put_list(text, names, &self.luts)
    }
}

fn put_luts(text: &mut String, names: &Names, r: &LutDefinitions) -> Result<(), AllocError> {
    put_list(text, names, &r.lut_cells)?;
    put_list(text, names, &r.lut_elements)
}

fn put_tiles(text: &mut String, names: &Names, r: &DeviceRec) -> Result<(), AllocError> {
    put_list(text, names, &r.site_type_list)?;
    put_list(text, names, &r.tile_type_list)?;
    put_list(text, names, &r.tile_list)?;
    put_list(text, names, &r.wires)?;
    put_list(text, names, &r.nodes)
}

/// Writes the record of a device.
pub fn put_device(text: &mut String, names: &Names, r: &DeviceRec) -> Result<(), AllocError> {
    put_name(text, names, r.name)?;
    put_tiles(text, names, r)?;
    put_list(text, names, &r.cell_bel_map)?;
    put_list(text, names, &r.packages)?;
    match &r.constants {
        Some(constants) => put_constants(text, names, constants)?,
        None => text.push_str("none ")?,
    }
    put_luts(text, names, &r.lut_definitions)
}
