//! What the answers are told as.

use ix_device::Device;
use ix_num::{CellId, Memory, NameId};
use ix_rec::{Flat, Groups};
use ix_strings::Names;

fn put_name(text: &mut String, names: &Names, name: NameId) -> Result<(), Memory> {
    if name.get() < names.len() {
        text.push_str(names.name(name))?;
    }
    Ok(())
}

// A cell's name, or its number where it has none.
fn put_cell(text: &mut String, names: &Names, flat: &Flat, cell: CellId) -> Result<(), Memory> {
    let place = cell.get();
    if place as usize >= flat.cells.len() {
        return Ok(());
    }
    let name = flat.cells.at(place as usize).name;
    put_name(text, names, name)
}

/// The sites of the fixed cells.
pub(crate) fn put_fixed(
    text: &mut String,
    device: &Device,
    names: &Names,
    flat: &Flat,
) -> Result<(), Memory> {
    for (cell, site) in flat.fixed.iter() {
        text.push_str(" ")?;
        put_cell(text, names, flat, *cell)?;
        text.push_str("=")?;
        if site.get() < device.sites() {
            put_name(text, names, device.site_name(*site))?;
        }
    }
    Ok(())
}

/// The cells of each group.
pub(crate) fn put_groups(
    text: &mut String,
    names: &Names,
    flat: &Flat,
    groups: &Groups,
) -> Result<(), Memory> {
    for g in 0..groups.len() {
        text.push_str(" [")?;
        put_members(text, names, flat, groups, g)?;
        text.push_str("]")?;
    }
    Ok(())
}

fn put_members(
    text: &mut String,
    names: &Names,
    flat: &Flat,
    groups: &Groups,
    g: usize,
) -> Result<(), Memory> {
    if g >= groups.len() {
        return Ok(());
    }
    let group = groups.at(g);
    for i in 0..group.len() {
        if i > 0 {
            text.push_str(" ")?;
        }
        put_cell(text, names, flat, *group.at(i))?;
    }
    Ok(())
}

/// A cell type with its counts.
pub(crate) fn put_short(
    text: &mut String,
    names: &Names,
    kind: NameId,
    cells: u64,
    bels: u64,
) -> Result<(), Memory> {
    text.push_str(" ")?;
    put_name(text, names, kind)?;
    write!(text, ": {cells} cells, {bels} BELs")?;
    Ok(())
}
