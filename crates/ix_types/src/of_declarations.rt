//! What an instance of a declaration is.

ghost use Rattle.std.specs.Prelude.{◌≡◌, ◌<◌, length, IfOk};
ghost use Rattle.ix_hierarchy.specs.Pins.{constant_among};
ghost use Rattle.ix_hierarchy.specs.Lists.{AreFirstCells, AreKinds, IsKind, first_cell};
ghost use Rattle.ix_types.specs.Known.{HasTypes, IsLeafKind};

use ix_first::FirstByKey;
use ix_hierarchy::Kind;
use ix_keys::Key;
use ix_num::{Constant, Memory, NameId};
use ix_rec::{Constants, DeviceRec, NetlistRec};
use std::alloc::Global;

/// The constant of a type of constant cells; a type that is both is gnd's.
pub fn constant_of(constants: &Option<Constants>, ty: NameId) -> Option<Constant>
    ensures { result ≡ constant_among constants.now ty }
{
    let constants = constants.as_ref()?;
    if constants.gnd_cell_type == ty {
        Some(Constant::Gnd)
    } else if constants.vcc_cell_type == ty {
        Some(Constant::Vcc)
    } else {
        None
    }
}

// The types of the cell-to-BEL map.
fn known_types(alloc: Global, rec: &DeviceRec) -> Result<FirstByKey<()>, Memory>
    ensures { IfOk result (λ known. HasTypes known rec.now.cell_bel_map) }
{
    let mut known = FirstByKey::new(alloc);
    for i in 0..rec.cell_bel_map.len() {
        known.put(Key::of_name(rec.cell_bel_map.at(i).cell.get()), ())?;
    }
    Ok(known)
}

// What a leaf of a type is.
fn leaf_kind(device: &DeviceRec, known: &FirstByKey<()>, ty: NameId) -> Kind
    requires { HasTypes known.now device.now.cell_bel_map }
    ensures { IsLeafKind device.now ty result }
{
    match constant_of(&device.constants, ty) {
        Some(constant) => Kind::Constant(constant),
        None => match known.get(Key::of_name(ty.get())) {
            Some(()) => Kind::Plain,
            None => Kind::Unknown,
        },
    }
}

fn kind_of(
    rec: &NetlistRec,
    cell: Option<u32>,
    device: &DeviceRec,
    known: &FirstByKey<()>,
    declaration: usize,
) -> Kind
    requires within { declaration < length rec.now.cell_decls }
    requires cell { cell ≡ first_cell rec.now declaration }
    requires known { HasTypes known.now device.now.cell_bel_map }
    ensures { IsKind device.now rec.now declaration result }
{
    match cell {
        Some(cell) => Kind::Inside(cell),
        None => leaf_kind(device, known, rec.cell_decls.at(declaration).name),
    }
}

/// What the instances of each declaration are, where `cells` are the first cells of declarations.
/// `Memory` is the only error.
pub fn kinds(
    alloc: Global,
    rec: &NetlistRec,
    cells: &[Option<u32>],
    device: &DeviceRec,
) -> Result<Vec<Kind>, Memory>
    requires { AreFirstCells rec.now cells.now }
    ensures { IfOk result (λ kinds. AreKinds device.now rec.now kinds.items) }
{
    let known = known_types(alloc, device)?;
    let mut kinds = Vec::new(alloc);
    for declaration in 0..rec.cell_decls.len() {
        kinds.push(kind_of(rec, cells[declaration], device, &known, declaration))?;
    }
    Ok(kinds)
}
