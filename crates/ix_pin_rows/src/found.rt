//! The rows of an instance.

ghost use Rattle.std.specs.Prelude.{◌≡◌, ◌<◌, ℕ, List, Some, length, slice_get};
ghost use Rattle.ix_rec.specs.declared.device.DeviceRec.{DeviceRec};
ghost use Rattle.ix_rec.specs.declared.netlist.Cell.{Cell};
ghost use Rattle.ix_rec.specs.declared.netlist.NetlistRec.{NetlistRec};
ghost use Rattle.ix_hierarchy.specs.declared.instance.Instance.{Instance as InstanceSeen};
ghost use Rattle.ix_hierarchy.specs.Hierarchy.{Path, inside};
ghost use Rattle.ix_hierarchy.specs.Lists.{AreInstances, AreKinds};
ghost use Rattle.ix_hierarchy.specs.Lists.{IsOuterRow};
ghost use Rattle.ix_bit_rows.specs.Table.{AreRowsIn};
ghost use Rattle.ix_pin_rows.specs.PinRows.{AreListed, ArePinRows};

use ix_bit_rows::Rows;
use ix_hierarchy::{Instance, Kind};

/// The rows that name bits of an instance, in the cell that it is in.
#[derive(Clone, Copy)]
pub struct RowsOf {
    /// The place of the first one.
    pub start: usize,
    /// The place behind the last one.
    pub end: usize,
    /// The first occurrence of a net of that cell.
    pub first_net: u32,
}

/// The rows that name bits of an instance below the top, by its number in preorder.
pub fn rows_of(kinds: &[Kind], outer: &Rows, instances: &[Instance], instance: u32) -> RowsOf
    requires listed { (design : NetlistRec) × (device : DeviceRec) × (paths : List Path)
        × (nets : ℕ)
        × AreListed design device kinds.now outer.now instances.now paths nets }
    requires below { 0 < instance }
    requires there { instance < length instances.now }
    ensures { (design : NetlistRec) (device : DeviceRec) (paths : List Path) (nets : ℕ)
        (one parent : InstanceSeen) (cell : Cell)
        → AreListed design device kinds.now outer.now instances.now paths nets
        → slice_get instances.now instance ≡ Some one
        → slice_get instances.now one.parent ≡ Some parent
        → inside design parent.declaration ≡ Some cell
        → ArePinRows outer.now cell one.number result.start result.end
        × (result.first_net ≡ parent.first_net) }
{
    let one = instances[instance as usize];
    let parent = instances[one.parent as usize];
    let (start, end) = match kinds[parent.declaration as usize] {
        Kind::Inside(cell) => {
            let start = outer.start_of(cell, one.number);
            (start, outer.end_of(cell, one.number, start))
        }
        _ => (0, 0),
    };
    RowsOf {
        start,
        end,
        first_net: parent.first_net,
    }
}
