//! Where the LUT elements of site types stand.

ghost use Rattle.std.specs.Prelude.{◌≡◌, ◌<◌, ◌++◌, Some, length, map, slice_get, IfOk, OnOk};
ghost use Rattle.ix_lut_places.specs.Places.{lut_at, AreElements};
ghost use Rattle.ix_lut_places.specs.Filled.{luts_of, HaveElements};

use ix_device::Device;
use ix_first::number_of;
use ix_num::Memory;
use ix_rec::{DeviceRec, Items};
use std::alloc::Global;

/// Where a LUT element stands in a device's record.
#[derive(Clone, Copy)]
pub(crate) struct ElementPlace {
    /// The entry that has the element.
    pub entry: u32,
    /// The element's place in the entry.
    pub lut: u32,
}

/// The elements of a site type, in the order of their numbers.
pub(crate) type ElementRow = Items<ElementPlace>;

// Puts the elements of the entry of this number behind those of a row.
fn put_entry(row: &mut ElementRow, rec: &DeviceRec, entry: usize) -> Result<(), Memory>
    requires { entry < length rec.now.lut_definitions.lut_elements }
    ensures { OnOk result (map (lut_at rec.now) row.new
        ≡ map (lut_at rec.now) row.old ++ map Some (luts_of rec.now entry)) }
{
    let number = number_of(entry)?;
    for k in 0..rec.lut_definitions.lut_elements.at(entry).luts.len() {
        let lut = number_of(k)?;
        row.push(ElementPlace { entry: number, lut })?;
    }
    Ok(())
}

// Rows without elements, one for each site type.
fn empty_rows(alloc: Global, rec: &DeviceRec) -> Result<Vec<ElementRow>, Memory>
    ensures { IfOk result (λ rows. HaveElements rec.now 0 rows.items) }
{
    let mut rows = Vec::new(alloc);
    for _ in 0..rec.site_type_list.len() {
        rows.push(Items::new(alloc))?;
    }
    Ok(rows)
}

/// The elements of each site type.
pub(crate) fn element_rows(alloc: Global, device: &Device) -> Result<Vec<ElementRow>, Memory>
    ensures { IfOk result (λ rows. AreElements device.now rows.items) }
{
    let rec = device.rec();
    let mut rows = empty_rows(alloc, rec)?;
    for entry in 0..rec.lut_definitions.lut_elements.len() {
        let name = rec.lut_definitions.lut_elements.at(entry).site;
        if let Some(t) = device.site_type(name) {
            put_entry(&mut rows[t.get() as usize], rec, entry)?;
        }
    }
    Ok(rows)
}
