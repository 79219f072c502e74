//! Maps from cells and from pins.

use ix_num::{CellId, NameId};
use ix_rec::{CellMap, PinMap};
use std::alloc::Global;
use std::process::Abort;
use std::test::Fail;

/// The cells of a map with their values.
fn cells_of(alloc: Global, map: &CellMap<u32>) -> Result<Vec<(u32, u32)>, Fail> {
    let mut found = Vec::new(alloc);
    for (cell, value) in map.iter() {
        found.push((cell.get(), *value))?;
    }
    Ok(found)
}

/// The pins of a map with their values.
fn pins_of(alloc: Global, map: &PinMap<u32>) -> Result<Vec<(u32, u32, u32)>, Fail> {
    let mut found = Vec::new(alloc);
    for ((cell, name), value) in map.iter() {
        found.push((cell.get(), name.get(), *value))?;
    }
    Ok(found)
}

/// The pins of a map from a cell on.
fn pins_from(alloc: Global, map: &PinMap<u32>, cell: u32) -> Result<Vec<(u32, u32, u32)>, Fail> {
    let mut found = Vec::new(alloc);
    for ((owner, name), value) in map.from_cell(CellId::new(cell)) {
        found.push((owner.get(), name.get(), *value))?;
    }
    Ok(found)
}

#[test]
fn cell_maps(rt: HostRuntime) -> Result<(), Fail> {
    let alloc = rt.alloc();
    let mut map = CellMap::new(alloc);
    map.insert(CellId::new(9), 90)?;
    map.insert(CellId::new(3), 30)?;
    map.insert(CellId::new(9), 91)?;
    assert_eq!(rt; map.len(), 2);
    assert_eq!(rt; map.get(CellId::new(9)), Some(91));
    assert_eq!(rt; map.get(CellId::new(4)), None);
    let found = cells_of(alloc, &map)?;
    assert!(rt; found.as_slice() == [(3, 30), (9, 91)].as_slice());
    Ok(())
}

/// A map of four pins of three cells.
fn four_pins(alloc: Global) -> Result<PinMap<u32>, Fail> {
    let mut map = PinMap::new(alloc);
    map.insert(CellId::new(9), NameId::new(0), 1)?;
    map.insert(CellId::new(3), NameId::new(7), 2)?;
    map.insert(CellId::new(5), NameId::new(8), 3)?;
    map.insert(CellId::new(5), NameId::new(2), 4)?;
    map.insert(CellId::new(9), NameId::new(0), 5)?;
    Ok(map)
}

#[test]
fn pin_maps(rt: HostRuntime) -> Result<(), Fail> {
    let alloc = rt.alloc();
    let map = four_pins(alloc)?;
    assert_eq!(rt; map.len(), 4);
    assert_eq!(rt; map.get(CellId::new(5), NameId::new(2)), Some(4));
    assert_eq!(rt; map.get(CellId::new(2), NameId::new(5)), None);
    let all = pins_of(alloc, &map)?;
    let wanted = [(3, 7, 2), (5, 2, 4), (5, 8, 3), (9, 0, 5)];
    assert!(rt; all.as_slice() == wanted.as_slice());
    let some = pins_from(alloc, &map, 4)?;
    assert!(rt; some.as_slice() == [(5, 2, 4), (5, 8, 3), (9, 0, 5)].as_slice());
    Ok(())
}
