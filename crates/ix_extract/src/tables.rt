//! The truth tables of placed LUTs.

ghost use Rattle.std.specs.Prelude.{◌≡◌, ◌<◌, length, option_map, IfOk};
ghost use Rattle.ix_legal.specs.Sites.{element_at};
ghost use Rattle.ix_extract.specs.Taken.{TellTables, TellsTable, TellsTables};

use crate::held::Netlist;
use ix_device::Device;
use ix_num::{CellId, Memory};
use ix_placed_luts::{function_is_one, function_of};
use ix_rec::{CellMap, CellPlacement, TruthTable};
use ix_table_keys::table_is_one;
use std::alloc::Global;

/// What the table of its element gives a cell.
#[derive(Clone, Copy)]
pub(crate) enum LutTable {
    /// Nothing: the cell is no LUT.
    Plain,
    /// No function: the element has no table, or one that gives the LUT none.
    Lacking,
    /// A function.
    Has(TruthTable),
}

// The number of the element on whose BEL a cell is placed; none exactly where it is on none.
fn element_of(device: &Device, placement: &CellPlacement) -> Option<u32>
    ensures { result ≡ option_map (λ at. at.0) (element_at device.now placement.now.site
        placement.now.bel) }
{
    let site = device.site(placement.site)?;
    let ty = device.type_of(site);
    let bel = device.bel(ty, placement.bel)?;
    let (element, _) = device.element_of(ty, bel)?;
    Some(element)
}

// What the table of its element gives the cell of this number. The text is room for the table's
// key, which is hashed once where the cell is a LUT.
fn table_of(on: &Netlist<'_>, key: &mut String, cell: u32) -> Result<LutTable, Memory>
    requires ready { TellTables on.now.names.now on.now.device.now on.now.phys.now on.now.places.now
        on.now.keys.now on.now.ends.now on.now.holders.now }
    requires inside { cell < length on.now.phys.now.placements }
    ensures { IfOk result (TellsTable on.now.names.now on.now.device.now on.now.phys.now cell) }
{
    let placement = on.phys.placements.at(cell as usize);
    if on.places.cell(on.device, placement.ty).is_none() {
        return Ok(LutTable::Plain);
    }
    let Some(element) = element_of(on.device, placement) else {
        return Ok(LutTable::Lacking);
    };
    let Some(bits) = on
        .keys
        .bits(on.phys, on.names, key, placement.site, element)?
    else {
        return Ok(LutTable::Lacking);
    };
    match function_of(
        on.device, on.places, on.phys, on.ends, on.holders, placement, bits,
    ) {
        None => Ok(LutTable::Lacking),
        Some(table) => Ok(LutTable::Has(TruthTable {
            bits: table.bits,
            inputs: table.inputs,
        })),
    }
}

/// The truth tables of all LUTs; none exactly where one of them has no function. `Memory` is the
/// only error. For each LUT the names of its site and its BEL are hashed twice, and the key of its
/// element's table once.
pub(crate) fn lut_tables(
    alloc: Global,
    on: &Netlist<'_>,
) -> Result<Option<CellMap<TruthTable>>, Memory>
    requires ready { TellTables on.now.names.now on.now.device.now on.now.phys.now on.now.places.now
        on.now.keys.now on.now.ends.now on.now.holders.now }
    ensures { IfOk result (TellsTables on.now.names.now on.now.device.now on.now.phys.now) }
{
    // A LUT has one truth table at most.
    function_is_one();
    table_is_one();
    let mut tables = CellMap::new(alloc);
    let mut key = String::new(alloc);
    for cell in 0..on.phys.placements.len() {
        match table_of(on, &mut key, cell as u32)? {
            LutTable::Plain => {}
            LutTable::Lacking => return Ok(None),
            LutTable::Has(table) => tables.insert(CellId::new(cell as u32), table)?,
        }
    }
    Ok(Some(tables))
}
