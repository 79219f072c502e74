//! Whether there are BELs enough for the cells of each type.

ghost use Rattle.std.specs.Prelude.{◌≡◌, IfOk};
ghost use Rattle.ix_belmap.specs.Counts.{bels_of_device as bels_of_device_seen, IsShortTold};

use crate::bels::{bels_of_device, site_counts};
use crate::cells::cell_counts;
use ix_device::Device;
use ix_first::FirstByKey;
use ix_keys::Key;
use ix_num::{Memory, NameId};
use ix_rec::Flat;
use std::alloc::Global;

/// A cell type that has more cells than the BELs that admit it.
#[derive(Clone, Copy)]
pub struct Short {
    /// The type.
    pub kind: NameId,
    /// How many cells it has.
    pub cells: u64,
    /// How many BELs admit it, each counted at each site.
    pub bels: u64,
}

/// How many BELs admit a cell type, each counted at each site. It takes no memory; the sites are
/// walked once for each site type with such a BEL.
pub fn count_bels(device: &Device, cell: NameId) -> u64
    ensures { result ≡ bels_of_device_seen device.now cell }
{
    bels_of_device(device, cell, None)
}

/// The first type, by first cell, that has more cells than the BELs that admit it; none exactly
/// where no type has. Sites are walked once, and the BELs of site types once for each cell type.
///
/// # Errors
///
/// `Memory` alone.
pub fn first_short(alloc: Global, device: &Device, flat: &Flat) -> Result<Option<Short>, Memory>
    ensures { IfOk result (IsShortTold device.now flat.now.cells) }
{
    let sites = site_counts(alloc, device)?;
    let counts = cell_counts(alloc, &flat.cells)?;
    let mut seen = FirstByKey::new(alloc);
    for i in 0..flat.cells.len() {
        let kind = flat.cells.at(i).ty;
        if seen.put(Key::of_name(kind.get()), ())? {
            let cells = counts.get(kind);
            let bels = bels_of_device(device, kind, Some(&sites));
            if bels < cells {
                return Ok(Some(Short { kind, cells, bels }));
            }
        }
    }
    Ok(None)
}
