//! Writing names, tile wires and what may be there.

use ix_device::Device;
use ix_num::{NameId, TileId};
use ix_strings::Names;
use std::alloc::AllocError;

/// Writes the text of a name, and a question mark for what is none of the names.
pub fn put_name(text: &mut String, names: &Names, id: NameId) -> Result<(), AllocError> {
    if id.get() < names.len() {
        text.push_str(names.name(id))
    } else {
        text.push_str("?")
    }
}

/// Writes a number that may be there, else `none`.
pub fn put_found(text: &mut String, number: Option<u32>) -> Result<(), AllocError> {
    match number {
        Some(number) => write!(text, "{number}"),
        None => text.push_str("none"),
    }
}

/// The name of a tile, if it is there.
fn tile_name(device: &Device, tile: TileId) -> Option<NameId> {
    let tile = device.rec().tile_list.as_slice().get(tile.get() as usize)?;
    Some(tile.name)
}

/// The name of a wire of a tile's type, if it is there.
fn wire_name(device: &Device, tile: TileId, wire: u32) -> Option<NameId> {
    let rec = device.rec();
    let tile = rec.tile_list.as_slice().get(tile.get() as usize)?;
    let ty = rec.tile_type_list.as_slice().get(tile.ty as usize)?;
    let name = ty.wires.as_slice().get(wire as usize)?;
    Some(*name)
}

/// Writes the name of what may be there, else a question mark.
fn put_name_found(
    text: &mut String,
    names: &Names,
    name: Option<NameId>,
) -> Result<(), AllocError> {
    match name {
        Some(name) => put_name(text, names, name),
        None => text.push_str("?"),
    }
}

/// Writes the name of a tile.
pub fn put_tile_name(
    text: &mut String,
    names: &Names,
    device: &Device,
    tile: TileId,
) -> Result<(), AllocError> {
    put_name_found(text, names, tile_name(device, tile))
}

/// Writes the names of a tile and of a wire of it, with a slash between them.
pub fn put_wire_name(
    text: &mut String,
    names: &Names,
    device: &Device,
    tile: TileId,
    wire: u32,
) -> Result<(), AllocError> {
    put_tile_name(text, names, device, tile)?;
    text.push_str("/")?;
    put_name_found(text, names, wire_name(device, tile, wire))
}
