//! How far nodes reach over the rows and columns of tiles.

ghost use Rattle.std.specs.Prelude.{◌≡◌, ℕ, min, max, List, [], ◌∷◌, ◌++◌, length, map, Some, IfOk};
ghost use Rattle.std.specs.List.{AllByRecursion, range_with_len};
ghost use Rattle.ix_graph.specs.Nodes.{AreBelow, nodes_from};
ghost use Rattle.ix_graph.specs.Spans.{span, greatest, places_of_node};
ghost use Rattle.ix_graph.specs.Boxes.{IsExtent, IsBox, AreWidened, box_of, length_of, span_of_box};

use ix_num::{Memory, NodeId};
use ix_rec::{DeviceRec, Items};
use std::alloc::Global;

/// The least and the greatest of some numbers.
#[derive(Clone, Copy)]
pub(crate) struct Extent {
    /// The least.
    pub least: u32,
    /// The greatest.
    pub greatest: u32,
}

impl Extent {
    // Of one number.
    fn of(n: u32) -> Extent
        ensures { result ≡ record { least = n; greatest = n } }
    {
        Extent {
            least: n,
            greatest: n,
        }
    }

    // With one number more.
    fn with(self, n: u32) -> Extent
        ensures { result ≡ record { least = min self.least n; greatest = max self.greatest n } }
    {
        Extent {
            least: self.least.min(n),
            greatest: self.greatest.max(n),
        }
    }

    // The greatest less the least.
    fn length(self) -> u32
        requires { IsExtent self }
        ensures { result ≡ length_of self }
    {
        self.greatest - self.least
    }
}

/// The box of some tiles.
#[derive(Clone, Copy)]
pub(crate) struct TileBox {
    /// Their rows.
    pub rows: Extent,
    /// Their columns.
    pub columns: Extent,
}

impl TileBox {
    // With one tile more. Without a box before it, that tile's own.
    fn with(before: Option<TileBox>, row: u32, column: u32) -> TileBox
        ensures { (places : List (ℕ × ℕ)) → before ≡ box_of places
            → Some result ≡ box_of (places ++ (row, column) ∷ []) }
    {
        match before {
            Some(b) => TileBox {
                rows: b.rows.with(row),
                columns: b.columns.with(column),
            },
            None => TileBox {
                rows: Extent::of(row),
                columns: Extent::of(column),
            },
        }
    }

    // Half its perimeter.
    fn half_perimeter(self) -> u64
        requires { IsBox (Some self) }
        ensures { result ≡ span_of_box (Some self) }
    {
        u64::from(self.rows.length()) + u64::from(self.columns.length())
    }
}

// Widens the boxes of the nodes of a tile's wires by the tile.
fn add_tile(boxes: &mut Vec<Option<TileBox>>, nodes: &Items<NodeId>, row: u32, column: u32)
    requires below { AreBelow (length boxes.now.items) nodes.now }
    ensures { AreWidened (row, column) nodes.now boxes.old.items boxes.new.items }
{
    for i in 0..nodes.len() {
        let node = nodes.at(i).get() as usize;
        boxes[node] = Some(TileBox::with(boxes[node], row, column));
    }
}

// The box of each node, of which there are so many: that of the tiles of its wires.
fn boxes_of(
    alloc: Global,
    rec: &DeviceRec,
    wires: &Items<Items<NodeId>>,
    count: usize,
) -> Result<Vec<Option<TileBox>>, Memory>
    requires wires { wires.now ≡ nodes_from rec.now 0 rec.now.tile_list }
    requires below { AllByRecursion (AreBelow count) wires.now }
    ensures { IfOk result (λ boxes. boxes.items
        ≡ map (λ n. box_of (places_of_node rec.now n)) (range_with_len 0 count)) }
{
    let mut boxes = Vec::new(alloc);
    boxes.resize(count, None)?;
    for i in 0..rec.tile_list.len() {
        let tile = rec.tile_list.at(i);
        add_tile(&mut boxes, wires.at(i), tile.row, tile.col);
    }
    Ok(boxes)
}

// The greatest half perimeter of these boxes, 0 where there is no box.
fn greatest_of(boxes: &[Option<TileBox>]) -> u64
    requires { AllByRecursion IsBox boxes.now }
    ensures { result ≡ greatest (map span_of_box boxes.now) }
{
    let mut greatest = 0;
    for b in boxes {
        let span = match b {
            Some(b) => b.half_perimeter(),
            None => 0,
        };
        greatest = greatest.max(span);
    }
    greatest
}

/// The greatest span of a node, 0 where there is none: half the perimeter of the box of its wires'
/// tiles.
///
/// `wires` are the nodes of the wires of each tile, `count` is how many nodes there are.
///
/// `Memory` is the only error, and is told too where a span has more than 32 bits; a valid device
/// has none.
pub(crate) fn greatest_span(
    alloc: Global,
    rec: &DeviceRec,
    wires: &Items<Items<NodeId>>,
    count: usize,
) -> Result<u32, Memory>
    requires wires { wires.now ≡ nodes_from rec.now 0 rec.now.tile_list }
    requires below { AllByRecursion (AreBelow count) wires.now }
    ensures { IfOk result (λ most. most ≡ greatest (map (span rec.now) (range_with_len 0 count))) }
{
    let boxes = boxes_of(alloc, rec, wires, count)?;
    u32::try_from(greatest_of(&boxes)).map_err(|_| Memory)
}
