//! A device, and what it tells by name and by number.

ghost use Rattle.std.specs.Prelude.{◌≡◌, ◌<◌, Some, None, length, slice_get, option_map, is_some};
ghost use Rattle.std.specs.Prelude.{IfSome};
ghost use Rattle.ix_rec.specs.Ranges.{IndexesFit, SiteTypeFits};
ghost use Rattle.ix_device_rules.specs.Rules.{first_broken};
ghost use Rattle.ix_device.specs.Lookups.{tile_named, site_type_number, site_named, sites_of};
ghost use Rattle.ix_device.specs.Lookups.{name_of_site, tile_of_site, type_of_site, place_of_site};
ghost use Rattle.ix_device.specs.Lookups.{row_and_column, wire_in_tile as wire_in_tile_seen};
ghost use Rattle.ix_device.specs.Lookups.{wire_of_site_pin as wire_of_site_pin_seen, IsInTile};
ghost use Rattle.ix_device.specs.Lookups.{tile_wire_named, in_type, bel_in, bel_pin_in};
ghost use Rattle.ix_device.specs.Lookups.{site_pin_in, wire_in};
ghost use Rattle.ix_device.specs.Admission.{pins_in};
ghost use Rattle.ix_device.specs.PinsListed.{pins_listed};
ghost use Rattle.ix_device.specs.Elements.{lut_inputs_of, element_of_bel};
ghost use Rattle.ix_device.specs.Elements.{elements_of};
ghost use Rattle.ix_device.specs.Shapes.{shape_in, shape_seen};
ghost use Rattle.ix_lut.specs.Shapes.{IsUsable};
ghost use Rattle.ix_device.specs.Sources.{site_source_in, has_constant};
ghost use Rattle.ix_device.specs.SitePips.{site_pip_from};
ghost use Rattle.ix_device.specs.TypeTables.{AreTypeTables};

use crate::admitted::pins_of;
use crate::numbered::element_numbered;
use crate::pins::PinList;
use crate::shapes::shape_of;
use crate::sites::SiteEntry;
use crate::tables::Tables;
use crate::tile_wires::{tile_wire, wire_in_tile, wire_of_pin};
use crate::types::TypeTables;
use crate::usable::Pins;
use ix_keys::Key;
use ix_lut::ElementShape;
use ix_num::{
    BelId, BelPinId, Constant, NameId, SiteId, SitePinId, SiteTypeId, SiteWireId, TileId,
};
use ix_rec::{DeviceRec, SiteType};
use std::marker::Model;

/// A device that keeps all its rules. In contracts it is its record. No look-up takes memory: one
/// by name is one hash, one by number an index.
///
/// Numbers that are given to a look-up are in range: a site's below `sites`, a tile's, a site
/// type's, a BEL's or a pin's below the length of its list in the record.
#[derive(Drop)]
pub struct Device {
    pub(crate) rec: DeviceRec,
    pub(crate) tables: Tables,
}

impl Model for Device {
    ghost use Rattle.ix_rec.specs.declared.device.DeviceRec.{DeviceRec as RecSeen};
    ghost use Rattle.ix_device.specs.Valid.{IsChecked};

    ghost Value = { RecSeen };

    ghost view = { λ d. d.rec };

    ghost invariant = { λ d. IsChecked d.rec d.tables };
}

impl Device {
    // A site type and its tables.
    fn parts(&self, t: SiteTypeId) -> (&SiteType, &TypeTables)
        requires { t < length self.now.site_type_list }
        ensures ty { slice_get self.now.site_type_list t ≡ Some result.0.now }
        ensures fits { SiteTypeFits result.0.now }
        ensures tables { AreTypeTables self.now result.0.now result.1.now }
    {
        let place = t.get() as usize;
        (
            self.rec.site_type_list.at(place),
            self.tables.types.at(place),
        )
    }

    // What the table tells of a site.
    fn entry(&self, site: SiteId) -> SiteEntry
        requires { site < length (sites_of self.now) }
        ensures name { name_of_site self.now site ≡ Some result.name }
        ensures tile { tile_of_site self.now site ≡ Some result.tile }
        ensures ty { type_of_site self.now site ≡ Some result.ty }
        ensures place { place_of_site self.now site ≡ Some result.place }
        ensures inside { result.ty < length self.now.site_type_list }
    {
        *self.tables.entries.at(site.get() as usize)
    }

    /// The record that was checked.
    pub fn rec(&self) -> &DeviceRec
        ensures same { result.now ≡ self.now }
        ensures valid { first_broken self.now ≡ None }
        ensures fits { IndexesFit self.now }
    {
        &self.rec
    }

    /// The tile of this name; none exactly where there is none.
    pub fn tile(&self, name: NameId) -> Option<TileId>
        ensures tile { result ≡ tile_named self.now name }
        ensures inside { IfSome result (λ t. t < length self.now.tile_list) }
    {
        self.tables.tiles.get(Key::of_name(name.get()))
    }

    /// The site of this name; none exactly where there is none.
    pub fn site(&self, name: NameId) -> Option<SiteId>
        ensures site { result ≡ site_named self.now name }
        ensures inside { IfSome result (λ s. s < length (sites_of self.now)) }
    {
        self.tables.sites.get(Key::of_name(name.get()))
    }

    /// The site type of this name; none exactly where there is none.
    pub fn site_type(&self, name: NameId) -> Option<SiteTypeId>
        ensures { result ≡ site_type_number self.now name }
    {
        self.tables.site_types.get(Key::of_name(name.get()))
    }

    /// The tile wire of these names: its tile, and its place in the tile's type; none exactly where
    /// there is none.
    pub fn tile_wire(&self, tile: NameId, wire: NameId) -> Option<(TileId, u32)>
        ensures { result ≡ tile_wire_named self.now tile wire }
    {
        tile_wire(
            &self.rec,
            &self.tables.tiles,
            &self.tables.wires,
            tile,
            wire,
        )
    }

    /// The place of the wire of this name in the tile's type; none exactly where there is none.
    pub fn wire_in_tile(&self, tile: TileId, name: NameId) -> Option<u32>
        requires { tile < length self.now.tile_list }
        ensures wire { result ≡ wire_in_tile_seen self.now tile name }
        ensures inside { IfSome result (IsInTile self.now tile) }
    {
        wire_in_tile(&self.rec, &self.tables.wires, tile, name)
    }

    /// The place, in the type of the site's tile, of the tile wire that the site's pin is on; none
    /// exactly where there is none. In a valid device each pin of the site's type is on one.
    pub fn wire_of_site_pin(&self, site: SiteId, pin: SitePinId) -> Option<u32>
        requires { site < length (sites_of self.now) }
        ensures wire { result ≡ wire_of_site_pin_seen self.now site pin }
        ensures inside { IfSome result (λ w. IfSome (tile_of_site self.now site) (λ tile.
            IsInTile self.now tile w)) }
    {
        let entry = self.entry(site);
        wire_of_pin(&self.rec, &self.tables.wires, entry.tile, entry.place, pin)
    }

    /// How many sites there are. Their numbers are those below it, by tile and by place in the
    /// tile.
    pub fn sites(&self) -> u32
        ensures { result ≡ length (sites_of self.now) }
    {
        self.tables.entries.len() as u32
    }

    /// The name of a site.
    pub fn site_name(&self, site: SiteId) -> NameId
        requires { site < length (sites_of self.now) }
        ensures { name_of_site self.now site ≡ Some result }
    {
        self.entry(site).name
    }

    /// The type of a site.
    pub fn type_of(&self, site: SiteId) -> SiteTypeId
        requires { site < length (sites_of self.now) }
        ensures ty { type_of_site self.now site ≡ Some result }
        ensures inside { result < length self.now.site_type_list }
    {
        self.entry(site).ty
    }

    /// The tile of a site.
    pub fn tile_of(&self, site: SiteId) -> TileId
        requires { site < length (sites_of self.now) }
        ensures { tile_of_site self.now site ≡ Some result }
    {
        self.entry(site).tile
    }

    /// The row and the column of a tile.
    pub fn row_col(&self, tile: TileId) -> (u32, u32)
        requires { tile < length self.now.tile_list }
        ensures { row_and_column self.now tile ≡ Some result }
    {
        let tile = self.rec.tile_list.at(tile.get() as usize);
        (tile.row, tile.col)
    }

    /// The BEL of this name in a site type; none exactly where there is none.
    pub fn bel(&self, t: SiteTypeId, name: NameId) -> Option<BelId>
        requires { t < length self.now.site_type_list }
        ensures bel { result ≡ in_type (bel_in name) self.now t }
        ensures inside { IfSome result (λ b. IfSome (slice_get self.now.site_type_list t) (λ ty.
            b < length ty.bels)) }
    {
        let (_, tables) = self.parts(t);
        tables.bels.get(Key::of_name(name.get()))
    }

    /// The pin of this name of a BEL of a site type; none exactly where there is none.
    pub fn bel_pin(&self, t: SiteTypeId, bel: BelId, name: NameId) -> Option<BelPinId>
        requires { t < length self.now.site_type_list }
        ensures pin { result ≡ in_type (bel_pin_in bel name) self.now t }
        ensures inside { IfSome result (λ p. IfSome (slice_get self.now.site_type_list t) (λ ty.
            p < length ty.bel_pins)) }
    {
        let (ty, tables) = self.parts(t);
        match ty.bels.as_slice().get(bel.get() as usize) {
            Some(bel) => tables.bel_pins.get(Key::new(0, bel.name.get(), name.get())),
            None => None,
        }
    }

    /// The site wire that a BEL pin of a site type is on; none exactly where it is on none.
    pub fn wire_of(&self, t: SiteTypeId, pin: BelPinId) -> Option<SiteWireId>
        requires ty { t < length self.now.site_type_list }
        requires pin { IfSome (slice_get self.now.site_type_list t) (λ ty.
            pin < length ty.bel_pins) }
        ensures { result ≡ in_type (wire_in pin) self.now t }
    {
        let (_, tables) = self.parts(t);
        tables.wires.get(pin.get() as usize)
    }

    /// The BEL pin to which the first site PIP from a BEL pin of a site type leads; none exactly
    /// where there is no site PIP from it, a BEL inverts there, or the pin's BEL isn't for routing.
    pub fn site_pip(&self, t: SiteTypeId, pin: BelPinId) -> Option<BelPinId>
        requires ty { t < length self.now.site_type_list }
        requires pin { IfSome (slice_get self.now.site_type_list t) (λ ty.
            pin < length ty.bel_pins) }
        ensures pip { result ≡ in_type (site_pip_from pin) self.now t }
        ensures inside { IfSome result (λ p. IfSome (slice_get self.now.site_type_list t) (λ ty.
            p < length ty.bel_pins)) }
    {
        let (_, tables) = self.parts(t);
        tables.site_pips.get(pin.get() as usize)
    }

    /// The site pin of this name of a site type; none exactly where there is none.
    pub fn site_pin(&self, t: SiteTypeId, name: NameId) -> Option<SitePinId>
        requires { t < length self.now.site_type_list }
        ensures pin { result ≡ in_type (site_pin_in name) self.now t }
        ensures inside { IfSome result (λ p. IfSome (slice_get self.now.site_type_list t) (λ ty.
            p < length ty.pins)) }
    {
        let (_, tables) = self.parts(t);
        tables.site_pins.get(Key::of_name(name.get()))
    }

    /// The pins by which a BEL of a site type takes a cell of this type; none exactly where it
    /// doesn't admit the type.
    pub fn pins_of(&self, cell: NameId, t: SiteTypeId, bel: BelId) -> Option<PinList<'_>>
        requires ty { t < length self.now.site_type_list }
        requires bel { IfSome (slice_get self.now.site_type_list t) (λ ty. bel < length ty.bels) }
        ensures { option_map pins_listed result ≡ in_type (pins_in self.now cell bel) self.now t }
    {
        let (ty, parts) = self.parts(t);
        pins_of(&self.rec, &self.tables, cell, t, ty, parts, bel)
    }

    /// Whether a BEL of a site type admits a cell of this type.
    pub fn takes(&self, cell: NameId, t: SiteTypeId, bel: BelId) -> bool
        requires ty { t < length self.now.site_type_list }
        requires bel { IfSome (slice_get self.now.site_type_list t) (λ ty. bel < length ty.bels) }
        ensures { result ≡ is_some (in_type (pins_in self.now cell bel) self.now t) }
    {
        self.pins_of(cell, t, bel).is_some()
    }

    /// How many inputs a LUT type has; none exactly where the cell type isn't one.
    pub fn lut_inputs(&self, cell: NameId) -> Option<u32>
        ensures { result ≡ lut_inputs_of self.now cell }
    {
        self.tables.lut_types.get(Key::of_name(cell.get()))
    }

    /// The LUT element of a BEL of a site type, and the BEL's place in it; none exactly where it is
    /// in none.
    pub fn element_of(&self, t: SiteTypeId, bel: BelId) -> Option<(u32, u32)>
        requires ty { t < length self.now.site_type_list }
        requires bel { IfSome (slice_get self.now.site_type_list t) (λ ty. bel < length ty.bels) }
        ensures { result ≡ in_type (element_of_bel self.now bel) self.now t }
    {
        let (_, tables) = self.parts(t);
        tables.elements.get(bel.get() as usize)
    }

    /// How many LUT elements a site type has. Their numbers are those below it.
    pub fn elements(&self, t: SiteTypeId) -> u32
        requires { t < length self.now.site_type_list }
        ensures { option_map (λ ty. length (elements_of self.now ty))
            (slice_get self.now.site_type_list t) ≡ Some result }
    {
        let (ty, _) = self.parts(t);
        self.tables.elements.counts.get(ty.name)
    }

    /// The shape of a site type's LUT element; none exactly where there is no element of this
    /// number, or it isn't usable. Lines are numbered by first appearance among the inputs of the
    /// element's BELs. The element is found by a hash, and so is each input.
    pub fn shape(&self, t: SiteTypeId, element: u32) -> Option<ElementShape>
        requires { t < length self.now.site_type_list }
        ensures shape { option_map shape_seen result
            ≡ in_type (shape_in self.now element) self.now t }
        ensures usable { IfSome result IsUsable }
    {
        let (ty, tables) = self.parts(t);
        let entries = &self.rec.lut_definitions.lut_elements;
        let pins = Pins {
            ty,
            numbers: &tables.bel_pins,
            wires: &tables.wires,
        };
        match element_numbered(entries, &self.tables.elements, ty.name, element) {
            Some(element) => shape_of(&pins, element),
            None => None,
        }
    }

    /// The constant that a BEL pin of a site type can drive; none exactly where it can drive none.
    pub fn site_source(&self, t: SiteTypeId, pin: BelPinId) -> Option<Constant>
        requires ty { t < length self.now.site_type_list }
        requires pin { IfSome (slice_get self.now.site_type_list t) (λ ty.
            pin < length ty.bel_pins) }
        ensures { result ≡ in_type (site_source_in self.now pin) self.now t }
    {
        let (_, tables) = self.parts(t);
        tables.sources.get(pin.get() as usize)
    }

    /// Whether one of the device's tile wires carries this constant.
    pub fn has_const(&self, c: Constant) -> bool
        ensures { result ≡ has_constant self.now c }
    {
        match c {
            Constant::Gnd => self.tables.has_gnd,
            Constant::Vcc => self.tables.has_vcc,
        }
    }
}
