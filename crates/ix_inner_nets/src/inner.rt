//! For each port bit of an instance the net inside it that names the same bit.

ghost use Rattle.std.specs.Prelude.{◌≡◌, ◌<◌, ℕ, IfOk, length};
ghost use Rattle.ix_rec.specs.declared.device.DeviceRec.{DeviceRec};
ghost use Rattle.ix_hierarchy.specs.Broken.{Reaches};
ghost use Rattle.ix_hierarchy.specs.Fits.{NetlistFits};
ghost use Rattle.ix_hierarchy.specs.Lists.{AreKinds, IsOwnRow, IsOuterRow, bit_in};
ghost use Rattle.ix_bit_rows.specs.Table.{AreRowsIn};
ghost use Rattle.ix_inner_nets.specs.Inner.{IsInner, AreInner};

use ix_bit_rows::Rows;
use ix_hierarchy::{Kind, Row};
use ix_num::Memory;
use ix_rec::NetlistRec;
use std::alloc::Global;

// The net inside a declaration that names the row's bit.
fn inner_net(
    rec: &NetlistRec,
    kinds: &[Kind],
    own: &Rows,
    declaration: u32,
    row: &Row,
) -> Option<u32>
    requires kinds { (device : DeviceRec) × AreKinds device rec.now kinds.now }
    requires own { AreRowsIn rec.now IsOwnRow own.now }
    requires inside { declaration < length kinds.now }
    ensures { Reaches rec.now rec.now.top_inst.cell declaration
        → IsInner rec.now declaration (bit_in row.now) result }
{
    match kinds[declaration as usize] {
        Kind::Inside(cell) => own.net_of(cell, row.port, row.index),
        _ => None,
    }
}

/// For each row of an instance the net inside the instance which names the same bit; none where
/// there is no such net, or where the instance has no inside. `Memory` is the only error.
pub fn inner_nets(
    alloc: Global,
    rec: &NetlistRec,
    kinds: &[Kind],
    own: &Rows,
    outer: &Rows,
) -> Result<Vec<Option<u32>>, Memory>
    requires fits { (names : ℕ) × NetlistFits names rec.now }
    requires kinds { (device : DeviceRec) × AreKinds device rec.now kinds.now }
    requires own { AreRowsIn rec.now IsOwnRow own.now }
    requires outer { AreRowsIn rec.now IsOuterRow outer.now }
    ensures { IfOk result (λ inner. AreInner rec.now outer.now.rows inner.items) }
{
    let mut inner = Vec::new(alloc);
    for place in 0..outer.len() {
        let row = outer.at(place);
        let declaration = rec.inst_list.at(row.instance as usize).cell;
        inner.push(inner_net(rec, kinds, own, declaration, &row))?;
    }
    Ok(inner)
}
