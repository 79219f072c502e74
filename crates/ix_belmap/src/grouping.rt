//! The groups of cells that are packed together.

ghost use Rattle.std.specs.Prelude.{◌≡◌, ◌<◌, ◌∷◌, ◌++◌, [], ℕ, length, not, IfOk};
ghost use Rattle.std.specs.List.{AllByRecursion, filter};
ghost use Rattle.ix_flat.specs.Range.{IsInRange, NumbersFit};
ghost use Rattle.ix_belmap.specs.Groups.{AreGroups, AreOfPorts, HaveEachOnce, has_cell, is_fixed};
ghost use Rattle.ix_belmap.specs.Marks.{is_marked};

use crate::marks::Marks;
use crate::nets::{inner_rows, port_nets};
use ix_device::Device;
use ix_first::number_of;
use ix_num::{CellId, Memory};
use ix_rec::{Flat, Groups, Items};
use std::alloc::Global;

// The groups of the port cells, in flat order, and which cells are in one.
fn port_groups(alloc: Global, device: &Device, flat: &Flat) -> Result<(Groups, Vec<bool>), Memory>
    requires { NumbersFit flat.now }
    ensures groups { IfOk result (λ r. AreOfPorts device.now flat.now r.0) }
    ensures count { IfOk result (λ r. length r.1.items ≡ length flat.now.cells) }
    ensures marks { IfOk result (λ r. (cell : ℕ) → is_marked r.1.items cell ≡ has_cell r.0 cell) }
{
    let nets = port_nets(alloc, flat)?;
    let rows = inner_rows(alloc, flat)?;
    let mut marks = Marks::new(alloc, flat)?;
    let mut groups = Items::new(alloc);
    for port in 0..flat.ports {
        let cell = CellId::new(port);
        let group = match nets.get(port as usize) {
            Some(net) => marks.group_on(alloc, device, flat, &rows, net, cell)?,
            None => marks.group_alone(alloc, cell)?,
        };
        groups.push(Items::from_vec(group))?;
    }
    let Marks { taken, .. } = marks;
    Ok((groups, taken))
}

// A group of one cell.
fn alone(alloc: Global, cell: CellId) -> Result<Items<CellId>, Memory>
    ensures { IfOk result (λ group. group ≡ cell ∷ []) }
{
    let mut group = Items::new(alloc);
    group.push(cell)?;
    Ok(group)
}

// The groups of fixed port cells, then the others.
fn fixed_first(alloc: Global, flat: &Flat, groups: Groups) -> Result<Groups, Memory>
    requires { AllByRecursion (λ group. 0 < length group) groups }
    ensures { IfOk result (λ all. all ≡ filter (is_fixed flat.now) groups
        ++ filter (λ group. not (is_fixed flat.now group)) groups) }
{
    let mut first = Vec::new(alloc);
    let mut others = Vec::new(alloc);
    for group in groups.into_vec() {
        if flat.fixed.get(*group.at(0)).is_some() {
            first.push(group)?;
        } else {
            others.push(group)?;
        }
    }
    first.append(&mut others)?;
    Ok(Items::from_vec(first))
}

/// The groups of cells that are packed together, each cell in one: the groups of fixed port cells,
/// those of other port cells, then every other cell alone, each in flat order. The group of a port
/// cell has it and, behind it, the first cells, at most eight and in flat order, that are on its
/// signal net, aren't port cells, are in no earlier group, and whose type only site types admit
/// that also admit the port cell's type.
///
/// # Errors
///
/// `Memory` alone.
pub fn groups(alloc: Global, device: &Device, flat: &Flat) -> Result<Groups, Memory>
    requires { IsInRange device.now flat.now }
    ensures groups { IfOk result (AreGroups device.now flat.now) }
    ensures once { IfOk result (HaveEachOnce flat.now) }
{
    let (of_ports, taken) = port_groups(alloc, device, flat)?;
    let mut groups = fixed_first(alloc, flat, of_ports)?;
    for cell in flat.ports..number_of(flat.cells.len())? {
        if !taken[cell as usize] {
            groups.push(alone(alloc, CellId::new(cell))?)?;
        }
    }
    Ok(groups)
}
