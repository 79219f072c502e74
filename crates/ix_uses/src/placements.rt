//! L2 of placements.

ghost use Rattle.std.specs.Prelude.{◌≡◌, ◌&&◌, ◌||◌, ◌<◌, ◌^◌, length, None, false, not, nat_eq};
ghost use Rattle.std.specs.Prelude.{is_some, IfOk, OnOk, []};
ghost use Rattle.ix_num.specs.Numbers.{NameNumber};
ghost use Rattle.ix_keys.specs.Keys.{has_key, with_key, key};
ghost use Rattle.ix_legal.specs.Sites.{pins_at};
ghost use Rattle.ix_walk.specs.Firsts.{TellsMisfit};
ghost use Rattle.ix_walk.specs.Marks.{has_mark, AreNamesOf};
ghost use Rattle.ix_uses.specs.Fitting.{PlacementFitsAt, AreInside, AreKeysOf, cell_of};
ghost use Rattle.ix_uses.specs.Fitting.{site_of};

use ix_device::Device;
use ix_keys::{Key, Keys};
use ix_num::Memory;
use ix_rec::{CellPlacement, Phys};
use ix_walk::{NameMarks, site_type_at};

// Whether the BEL admits the cell.
fn is_admitted(device: &Device, placement: &CellPlacement) -> bool
    ensures { result ≡ is_some (pins_at device.now placement.now.ty placement.now.site
        placement.now.bel) }
{
    let Some(t) = site_type_at(device, placement.site) else {
        return false;
    };
    match device.bel(t, placement.bel) {
        Some(bel) => device.takes(placement.ty, t, bel),
        None => false,
    }
}

// Whether the cell and the BEL are new. Both are noted.
fn is_alone(
    placement: &CellPlacement,
    cells: &mut NameMarks,
    bels: &mut Keys,
) -> Result<bool, Memory>
    requires { placement.now.cell_name < length cells.old }
    ensures alone { IfOk result (λ alone. alone ≡ (not (has_mark cells.old placement.now.cell_name)
        && not (has_key bels.old (key placement.now.site placement.now.bel 0)))) }
    ensures cells { (other : NameNumber) → has_mark cells.new other
        ≡ (nat_eq other placement.now.cell_name || has_mark cells.old other) }
    ensures count { length cells.new ≡ length cells.old }
    ensures bels { OnOk result (bels.new
        ≡ with_key bels.old (key placement.now.site placement.now.bel 0)) }
{
    let new_cell = cells.add(placement.cell_name);
    let new_bel = bels.add(Key::new(placement.site.get(), placement.bel.get(), 0))?;
    Ok(new_cell && new_bel)
}

/// The place of the first placement that breaks L2. The BELs are noted.
pub(crate) fn first_misplaced(
    device: &Device,
    phys: &Phys,
    sites: &NameMarks,
    cells: &mut NameMarks,
    bels: &mut Keys,
) -> Result<Option<u32>, Memory>
    requires few { length phys.now.placements < 2 ^ 32 }
    requires inside { AreInside cell_of phys.now.placements (length cells.old) }
    requires marked { AreNamesOf site_of phys.now.site_insts sites.now }
    requires unmarked { (cell : NameNumber) → has_mark cells.old cell ≡ false }
    requires empty { bels.old ≡ [] }
    ensures told { IfOk result (TellsMisfit (PlacementFitsAt device.now phys.now)
        phys.now.placements) }
    ensures noted { IfOk result (λ found. found ≡ None → AreKeysOf phys.now.placements bels.new) }
{
    for i in 0..phys.placements.len() {
        let placement = phys.placements.at(i);
        let alone = is_alone(placement, cells, bels)?;
        if !(alone && is_admitted(device, placement) && sites.has(placement.site)) {
            return Ok(Some(i as u32));
        }
    }
    Ok(None)
}
