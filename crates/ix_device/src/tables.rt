//! The tables of a device.

ghost use Rattle.std.specs.Prelude.{IfOk, ◌≡◌, None};
ghost use Rattle.ix_rec.specs.Ranges.{IndexesFit};
ghost use Rattle.ix_device_rules.specs.Rules.{first_broken};
ghost use Rattle.ix_device.specs.AllTables.{AreTables};

use crate::admissions::{Listing, listings};
use crate::constants::has_constant;
use crate::luts::lut_types;
use crate::names::{site_numbers, site_type_numbers, tile_numbers};
use crate::numbered::{NumberedElements, numbered_elements};
use crate::sites::{SiteEntry, site_entries};
use crate::tile_wires::tile_wires;
use crate::types::{TypeTables, all_type_tables};
use ix_first::{FirstByKey, number_of};
use ix_num::{Constant, Memory, SiteId, SiteTypeId, TileId};
use ix_rec::{DeviceRec, Items};
use std::alloc::Global;

/// What is told of a device by name and by number.
#[derive(Drop)]
pub(crate) struct Tables {
    /// The tiles by name.
    pub tiles: FirstByKey<TileId>,
    /// The site types by name.
    pub site_types: FirstByKey<SiteTypeId>,
    /// The sites by number.
    pub entries: Items<SiteEntry>,
    /// The sites by name.
    pub sites: FirstByKey<SiteId>,
    /// The places of wires in their tile types, by the type's number and the wire's name.
    pub wires: FirstByKey<u32>,
    /// What is told of each site type.
    pub types: Items<TypeTables>,
    /// The number of inputs of each LUT type, by name.
    pub lut_types: FirstByKey<u32>,
    /// The LUT elements of site types.
    pub elements: NumberedElements,
    /// The first pin map that lists a BEL for a cell type.
    pub listings: FirstByKey<Listing>,
    /// Whether the device has logic 0.
    pub has_gnd: bool,
    /// Whether the device has logic 1.
    pub has_vcc: bool,
}

/// The tables of a device that breaks no rule. `Memory` is its only error.
pub(crate) fn tables_of(alloc: Global, rec: &DeviceRec) -> Result<Tables, Memory>
    requires fits { IndexesFit rec.now }
    requires valid { first_broken rec.now ≡ None }
    ensures { IfOk result (AreTables rec.now) }
{
    let tiles = tile_numbers(alloc, rec)?;
    let site_types = site_type_numbers(alloc, rec)?;
    let entries = site_entries(alloc, rec)?;
    // Sites have numbers of 32 bits.
    number_of(entries.len())?;
    let sites = site_numbers(alloc, &entries)?;
    let wires = tile_wires(alloc, &rec.tile_type_list)?;
    let types = all_type_tables(alloc, rec)?;
    let lut_types = lut_types(alloc, rec)?;
    let elements = numbered_elements(alloc, &rec.lut_definitions.lut_elements)?;
    let listings = listings(
        alloc,
        &rec.cell_bel_map,
        &site_types,
        &rec.site_type_list,
        &types,
    )?;
    let has_gnd = has_constant(alloc, rec, &tiles, &wires, Constant::Gnd)?;
    let has_vcc = has_constant(alloc, rec, &tiles, &wires, Constant::Vcc)?;
    Ok(Tables {
        tiles,
        site_types,
        entries,
        sites,
        wires,
        types,
        lut_types,
        elements,
        listings,
        has_gnd,
        has_vcc,
    })
}
