//! The plan of an element.

ghost use Rattle.std.specs.Prelude.{◌≡◌, ◌≤◌, IfSome, IfNone, length, take};
ghost use Rattle.ix_lut.specs.Shapes.{IsUsable};
ghost use Rattle.ix_lut.specs.Items.{all_items, IsLeastAssignment};
ghost use Rattle.ix_lut.specs.Plans.{AreUses, IsPlan, HasNoPlan, HasNoTies, GivesFunctions};

use crate::assign::least_lines;
use crate::cells::{lay_cells, shown_ties};
use crate::forcing::{forced_bits, least_ties};
use crate::items::find_items;
use crate::lay::hold_lines;
use crate::masks::masks_of;
use crate::shape::{ElementShape, Tie};
use crate::uses::{Item, LutUse};

/// How the cells of an element share its lines and its table.
#[derive(Clone, Copy)]
pub struct ElementPlan {
    /// For each cell the line of each of its inputs; past them no matter.
    pub choice: [[u32; 6]; 8],
    /// For each line its tie; free where it has an item.
    pub ties: [Tie; 12],
    /// The element's table.
    pub bits: u64,
}

/// The plan with the least assignment; None where no ties serve.
fn plan_with(
    shape: &ElementShape,
    uses: &[LutUse],
    items: &[Item],
    lines: &[u32; 48],
) -> Option<ElementPlan>
    requires shape { IsUsable shape.now }
    requires uses { AreUses shape.now uses.now }
    requires items { items.now ≡ all_items uses.now }
    requires few { length items.now ≤ 48 }
    requires lines { IsLeastAssignment shape.now uses.now (take (length items.now) lines.now) }
    ensures plan { IfSome result (λ plan. IsPlan shape.now uses.now plan) }
    ensures none { IfNone result (HasNoTies shape.now uses.now) }
{
    let holding = hold_lines(items, lines, shape.lines);
    let laid = lay_cells(shape, uses, items, lines);
    let luts = &laid.luts[..uses.len()];
    match least_ties(luts, &holding.tieable, holding.held) {
        None => None,
        Some(held) => {
            let forced = forced_bits(luts, &held);
            Some(ElementPlan {
                choice: laid.choice,
                ties: shown_ties(&holding.tieable, &held),
                bits: forced.ones,
            })
        }
    }
}

/// The plan of an element with these LUT cells: each item, a net and which of a cell's inputs on
/// it, has a line of its own, and the other lines are tied where two cells that share a part of the
/// table need it. None where no lines or no ties serve. The cells are on different BELs in order.
pub fn element(shape: &ElementShape, uses: &[LutUse]) -> Option<ElementPlan>
    requires shape { IsUsable shape.now }
    requires uses { AreUses shape.now uses.now }
    ensures plan { IfSome result (λ plan. IsPlan shape.now uses.now plan) }
    ensures functions { IfSome result (λ plan. GivesFunctions shape.now uses.now plan) }
    ensures none { IfNone result (HasNoPlan shape.now uses.now) }
{
    let found = find_items(uses);
    let items = &found.items[..found.count];
    let masks = masks_of(shape, uses, items);
    match least_lines(&masks[..items.len()]) {
        None => None,
        Some(lines) => plan_with(shape, uses, items, &lines),
    }
}
