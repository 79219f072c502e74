//! What a device tells by name and by number.

ghost use Rattle.std.specs.Prelude.{◌<◌, length, slice_get, IfSome};

use crate::asked::{Asked, bel_named, name_of, pin_named, type_named};
use crate::names::{put_found, put_name};
use crate::shapes::put_element;
use ix_device::{Device, PinList};
use ix_num::{BelPinId, Constant, SiteId, SiteTypeId, TileId};
use ix_strings::Names;
use std::alloc::AllocError;

/// Writes a tile's row and column.
fn put_tile(text: &mut String, asked: &Asked<'_>, tile: TileId) -> Result<(), AllocError>
    requires { tile < length asked.now.device.now.tile_list }
{
    let number = tile.get();
    let (row, col) = asked.device.row_col(tile);
    write!(text, "{number} at {row} {col}")
}

/// Writes a site's name, found again by its number, its type and its tile.
fn put_site(text: &mut String, asked: &Asked<'_>, site: SiteId) -> Result<(), AllocError> {
    if site.get() >= asked.device.sites() {
        return text.push_str("a number past the sites");
    }
    let number = site.get();
    let ty = asked.device.type_of(site).get();
    let tile = asked.device.tile_of(site).get();
    write!(text, "{number} ")?;
    put_name(text, asked.names, asked.device.site_name(site))?;
    write!(text, " type {ty} tile {tile}")
}

/// Writes the pins by which a BEL takes a cell.
fn put_pins(text: &mut String, names: &Names, pins: &PinList<'_>) -> Result<(), AllocError> {
    text.push_str("by")?;
    for i in 0..pins.len() {
        let (cell_pin, bel_pin) = pins.at(i);
        let bel_pin = bel_pin.get();
        text.push_str(" ")?;
        put_name(text, names, cell_pin)?;
        write!(text, "={bel_pin}")?;
    }
    Ok(())
}

/// Writes a pin of a site type, its site wire and the constant that it can drive.
fn put_pin(
    text: &mut String,
    device: &Device,
    t: SiteTypeId,
    pin: BelPinId,
) -> Result<(), AllocError>
    requires ty { t < length device.now.site_type_list }
    requires pin { IfSome (slice_get device.now.site_type_list t) (λ ty. pin < length ty.bel_pins) }
{
    let number = pin.get();
    write!(text, "{number} wire ")?;
    match device.wire_of(t, pin) {
        Some(wire) => put_found(text, Some(wire.get()))?,
        None => text.push_str("none")?,
    }
    match device.site_source(t, pin) {
        Some(Constant::Gnd) => text.push_str(" source gnd"),
        Some(Constant::Vcc) => text.push_str(" source vcc"),
        None => text.push_str(" source none"),
    }
}

fn put_bel(text: &mut String, asked: &Asked<'_>, ty: &str, bel: &str) -> Result<(), AllocError> {
    let Some(t) = type_named(asked, ty) else {
        return text.push_str("no site type");
    };
    let Some(bel) = bel_named(asked, t, bel) else {
        return text.push_str("none");
    };
    let number = bel.get();
    match asked.device.element_of(t, bel) {
        Some((element, place)) => write!(text, "{number} element {element} {place}"),
        None => write!(text, "{number} element none"),
    }
}

fn put_bel_pin(
    text: &mut String,
    asked: &Asked<'_>,
    ty: &str,
    bel: &str,
    pin: &str,
) -> Result<(), AllocError> {
    let Some(t) = type_named(asked, ty) else {
        return text.push_str("no site type");
    };
    let Some(bel) = bel_named(asked, t, bel) else {
        return text.push_str("no BEL");
    };
    match pin_named(asked, t, bel, pin) {
        Some(pin) => put_pin(text, asked.device, t, pin),
        None => text.push_str("none"),
    }
}

fn put_taken(
    text: &mut String,
    asked: &Asked<'_>,
    cell: &str,
    ty: &str,
    bel: &str,
) -> Result<(), AllocError> {
    let Some(t) = type_named(asked, ty) else {
        return text.push_str("no site type");
    };
    let Some(bel) = bel_named(asked, t, bel) else {
        return text.push_str("no BEL");
    };
    let Some(cell) = name_of(asked, cell) else {
        return text.push_str("no name");
    };
    let takes = asked.device.takes(cell, t, bel);
    match asked.device.pins_of(cell, t, bel) {
        Some(pins) => put_pins(text, asked.names, &pins)?,
        None => text.push_str("none")?,
    }
    if takes != asked.device.pins_of(cell, t, bel).is_some() {
        text.push_str(", though it says otherwise")?;
    }
    Ok(())
}

fn put_site_pin(
    text: &mut String,
    asked: &Asked<'_>,
    ty: &str,
    pin: &str,
) -> Result<(), AllocError> {
    let Some(t) = type_named(asked, ty) else {
        return text.push_str("no site type");
    };
    let Some(pin) = name_of(asked, pin) else {
        return text.push_str("no name");
    };
    match asked.device.site_pin(t, pin) {
        Some(pin) => put_found(text, Some(pin.get())),
        None => text.push_str("none"),
    }
}

fn put_tile_wire(
    text: &mut String,
    asked: &Asked<'_>,
    tile: &str,
    wire: &str,
) -> Result<(), AllocError> {
    let Some(tile) = name_of(asked, tile) else {
        return text.push_str("no name");
    };
    let Some(wire) = name_of(asked, wire) else {
        return text.push_str("no name");
    };
    match asked.device.tile_wire(tile, wire) {
        Some((tile, place)) => {
            let tile = tile.get();
            write!(text, "{tile} {place}")
        }
        None => text.push_str("none"),
    }
}

/// Writes what a device tells of a tile, a site, a site type or a cell type.
fn put_by_name(
    text: &mut String,
    asked: &Asked<'_>,
    ask: &str,
    name: &str,
) -> Result<(), AllocError> {
    let Some(name) = name_of(asked, name) else {
        return text.push_str("no name");
    };
    match ask {
        "Tile" => match asked.device.tile(name) {
            Some(tile) => put_tile(text, asked, tile),
            None => text.push_str("none"),
        },
        "Site" => match asked.device.site(name) {
            Some(site) => put_site(text, asked, site),
            None => text.push_str("none"),
        },
        "SiteType" => match asked.device.site_type(name) {
            Some(t) => put_found(text, Some(t.get())),
            None => text.push_str("none"),
        },
        "LutInputs" => put_found(text, asked.device.lut_inputs(name)),
        _ => text.push_str("no such question"),
    }
}

/// Writes how many sites a device has, and which constants.
fn put_totals(text: &mut String, device: &Device) -> Result<(), AllocError> {
    let sites = device.sites();
    let gnd = u32::from(device.has_const(Constant::Gnd));
    let vcc = u32::from(device.has_const(Constant::Vcc));
    write!(text, "{sites} gnd {gnd} vcc {vcc}")
}

/// Writes what a device tells: the question is a word and up to three names.
pub fn put_told(text: &mut String, asked: &Asked<'_>, question: &str) -> Result<(), AllocError> {
    let ask = word(question, 0);
    let (first, second, third) = (word(question, 1), word(question, 2), word(question, 3));
    match ask {
        "Sites" => put_totals(text, asked.device),
        "TileWire" => put_tile_wire(text, asked, first, second),
        "Bel" => put_bel(text, asked, first, second),
        "BelPin" => put_bel_pin(text, asked, first, second, third),
        "SitePin" => put_site_pin(text, asked, first, second),
        "Shape" => put_element(text, asked, first, second),
        "Pins" => put_taken(text, asked, first, second, third),
        _ => put_by_name(text, asked, ask, first),
    }
}

/// The word of this number, from 0; empty where there are fewer.
pub fn word(text: &str, number: usize) -> &str {
    match text.split(' ').nth(number) {
        Some(word) => word,
        None => "",
    }
}
