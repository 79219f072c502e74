//! Lists and trees.

use ix_rec::{Forest, Items};
use std::alloc::Global;
use std::process::Abort;
use std::test::Fail;

/// Depths that are offered to a forest one after another, and whether it takes each.
const DEPTHS: [(u32, bool); 10] = [
    (1, false),
    (0, true),
    (2, false),
    (1, true),
    (2, true),
    (4, false),
    (1, true),
    (3, false),
    (0, true),
    (4_294_967_295, false),
];

/// Puts an item at the end of a forest where its depth may come next.
fn grow(forest: &mut Forest<u32>, depth: u32, item: u32) -> Result<bool, Fail> {
    if forest.takes(depth) {
        forest.push(depth, item)?;
        Ok(true)
    } else {
        Ok(false)
    }
}

/// Offers these depths to a forest, with their places as the items.
fn offer(rt: &impl Abort, forest: &mut Forest<u32>, depths: &[(u32, bool)]) -> Result<(), Fail> {
    let mut place = 0u32;
    for (depth, wanted) in depths {
        let taken = grow(forest, *depth, place)?;
        assert!(rt; taken == *wanted, "depth {depth} at {place}");
        place = place.saturating_add(1);
    }
    Ok(())
}

/// The depths and the items of a forest, taken one by one.
fn branches_of(alloc: Global, forest: &Forest<u32>) -> Result<Vec<(u32, u32)>, Fail> {
    let mut found = Vec::new(alloc);
    for i in 0..forest.len() {
        let branch = forest.at(i);
        found.push((branch.depth, branch.item))?;
    }
    Ok(found)
}

/// The items of a list, taken one by one.
fn items_of(alloc: Global, items: &Items<u32>) -> Result<Vec<u32>, Fail> {
    let mut found = Vec::new(alloc);
    for i in 0..items.len() {
        found.push(*items.at(i))?;
    }
    Ok(found)
}

/// Compares a list's items, as one slice and one by one.
fn check_items(
    rt: &impl Abort,
    alloc: Global,
    items: &Items<u32>,
    wanted: &[u32],
) -> Result<(), Fail> {
    assert!(rt; items.as_slice() == wanted);
    let found = items_of(alloc, items)?;
    assert!(rt; found.as_slice() == wanted);
    Ok(())
}

#[test]
fn forests(rt: HostRuntime) -> Result<(), Fail> {
    let alloc = rt.alloc();
    let mut forest = Forest::new(alloc);
    offer(&rt, &mut forest, &DEPTHS)?;
    let found = branches_of(alloc, &forest)?;
    let wanted = [(0, 1), (1, 3), (2, 4), (1, 6), (0, 8)];
    assert!(rt; found.as_slice() == wanted.as_slice());
    assert_eq!(rt; forest.as_slice().len(), 5);
    Ok(())
}

#[test]
fn items(rt: HostRuntime) -> Result<(), Fail> {
    let alloc = rt.alloc();
    let mut grown = Items::new(alloc);
    check_items(&rt, alloc, &grown, &[])?;
    grown.push(7)?;
    grown.push(9)?;
    check_items(&rt, alloc, &grown, &[7, 9])?;
    let mut roomy = Items::with_capacity(alloc, 1000)?;
    roomy.push(8)?;
    check_items(&rt, alloc, &roomy, &[8])?;
    let mut vector = Vec::new(alloc);
    vector.push(5)?;
    check_items(&rt, alloc, &Items::from_vec(vector), &[5])
}
