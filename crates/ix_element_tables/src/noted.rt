//! The tables of the elements that have LUTs.

ghost use Rattle.std.specs.Prelude.{◌≡◌, ◌<◌, ◌+◌, length, IfOk, OnOk};
ghost use Rattle.ix_table_keys.specs.Tables.{AreTableKeys};
ghost use Rattle.ix_element_tables.specs.Noted.{AreNoted, IsReady};

use crate::netlist::Netlist;
use ix_element_numbers::{element_is_one, number_is_one};
use ix_first::FirstById;
use ix_num::Memory;
use ix_table_keys::TableKeys;
use std::alloc::Global;

/// What was noted of elements, by their numbers: nothing of one without LUTs, else the bits of its
/// table, or that it has none.
pub(crate) type NotedTables = FirstById<Option<u64>>;

// Notes the table of the element of a placement, where a LUT is placed. The text is room for a key.
fn note(
    on: &Netlist<'_>,
    keys: &TableKeys,
    key: &mut String,
    tables: &mut NotedTables,
    placement: usize,
) -> Result<(), Memory>
    requires ready { IsReady on.now.names.now on.now.device.now on.now.phys.now on.now.places.now
        on.now.numbers.now }
    requires keys { AreTableKeys on.now.names.now on.now.phys.now keys.now }
    requires inside { placement < length on.now.phys.now.placements }
    requires noted { AreNoted on.now.names.now on.now.device.now on.now.phys.now
        on.now.numbers.now placement tables.old }
    ensures noted { OnOk result (AreNoted on.now.names.now on.now.device.now on.now.phys.now
        on.now.numbers.now (placement + 1) tables.new) }
{
    let its = on.phys.placements.at(placement);
    if on.places.cell(on.device, its.ty).is_none() {
        return Ok(());
    }
    let Some(at) = on.numbers.find(on.device, on.phys, placement) else {
        return Ok(());
    };
    element_is_one();
    number_is_one();
    if tables.get(at.number).is_none() {
        let bits = keys.bits(on.phys, on.names, key, its.site, at.element)?;
        tables.put(at.number, bits);
    }
    Ok(())
}

/// The tables of all elements that have LUTs. `Memory` is the only error. It takes 16 bytes an
/// element of an instance; the key of each table is hashed once.
pub(crate) fn noted_tables(
    alloc: Global,
    on: &Netlist<'_>,
    keys: &TableKeys,
) -> Result<NotedTables, Memory>
    requires ready { IsReady on.now.names.now on.now.device.now on.now.phys.now on.now.places.now
        on.now.numbers.now }
    requires keys { AreTableKeys on.now.names.now on.now.phys.now keys.now }
    ensures { IfOk result (AreNoted on.now.names.now on.now.device.now on.now.phys.now
        on.now.numbers.now (length on.now.phys.now.placements)) }
{
    let mut tables = NotedTables::new(alloc, on.numbers.count())?;
    let mut key = String::new(alloc);
    for placement in 0..on.phys.placements.len() {
        note(on, keys, &mut key, &mut tables, placement)?;
    }
    Ok(tables)
}
