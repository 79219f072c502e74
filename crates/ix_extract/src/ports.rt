//! The sites of port cells.

ghost use Rattle.std.specs.Prelude.{◌≡◌, ◌<◌, ◌+◌, length, Some, IfOk, OnOk};
ghost use Rattle.std.specs.Bool.{Decides};
ghost use Rattle.ix_flat.specs.Whole.{IsPortType};
ghost use Rattle.ix_legal.specs.Legal.{IsSmall};
ghost use Rattle.ix_extract.specs.Taken.{AreFixed, ArePortTypes, IsNameOf};

use crate::held::Netlist;
use ix_num::{CellId, Memory, NameId, SiteId};
use ix_rec::CellMap;
use ix_strings::Names;
use std::alloc::Global;

/// The types of port cells, where they are names at all.
#[derive(Clone, Copy)]
pub(crate) struct PortTypes {
    /// That of inputs.
    pub input: Option<NameId>,
    /// That of outputs.
    pub output: Option<NameId>,
}

// The name of this text; none exactly where there is none.
fn name_of(names: &Names, text: &str) -> Option<NameId>
    ensures { IsNameOf names.now text.now result }
{
    names.find(text)
}

// The types of port cells. Their names are hashed.
fn port_types(names: &Names) -> PortTypes
    ensures { ArePortTypes names.now result }
{
    PortTypes {
        input: name_of(names, "$PORT_IN"),
        output: name_of(names, "$PORT_OUT"),
    }
}

// Whether a name is this one.
fn is_name(name: Option<NameId>, other: NameId) -> bool
    ensures { Decides result (name ≡ Some other) }
{
    match name {
        Some(name) => name == other,
        None => false,
    }
}

// Whether a type is one of port cells.
fn is_port(names: &Names, types: &PortTypes, ty: NameId) -> bool
    requires { ArePortTypes names.now types.now }
    ensures { Decides result (IsPortType names.now ty) }
{
    is_name(types.input, ty) || is_name(types.output, ty)
}

// Puts the site of a cell, where it is a port.
fn put_site(
    on: &Netlist<'_>,
    types: &PortTypes,
    cell: u32,
    fixed: &mut CellMap<SiteId>,
) -> Result<(), Memory>
    requires types { ArePortTypes on.now.names.now types.now }
    requires inside { cell < length on.now.phys.now.placements }
    requires fixed { AreFixed on.now.names.now on.now.device.now on.now.phys.now cell fixed.old }
    ensures { OnOk result (AreFixed on.now.names.now on.now.device.now on.now.phys.now (cell + 1)
        fixed.new) }
{
    let placement = on.phys.placements.at(cell as usize);
    if is_port(on.names, types, placement.ty) {
        if let Some(site) = on.device.site(placement.site) {
            fixed.insert(CellId::new(cell), site)?;
        }
    }
    Ok(())
}

/// The sites of all port cells. `Memory` is the only error. The name of each of these sites is
/// hashed.
pub(crate) fn port_sites(alloc: Global, on: &Netlist<'_>) -> Result<CellMap<SiteId>, Memory>
    requires small { IsSmall on.now.phys.now }
    ensures { IfOk result (AreFixed on.now.names.now on.now.device.now on.now.phys.now
        (length on.now.phys.now.placements)) }
{
    let types = port_types(on.names);
    let mut fixed = CellMap::new(alloc);
    for cell in 0..on.phys.placements.len() {
        put_site(on, &types, cell as u32, &mut fixed)?;
    }
    Ok(fixed)
}
