//! Of which resources it is asked whether they are shared.

ghost use Rattle.std.specs.Prelude.{◌≡◌, ◌<◌, ℕ, suc, length, slice_get, Some, IfOk};
ghost use Rattle.ix_rec.specs.declared.phys.PhysNet.{PhysNet as NetSeen};
ghost use Rattle.ix_ends.specs.Ends.{AreEnds};
ghost use Rattle.ix_legal.specs.Legal.{IsSmall};
ghost use Rattle.ix_holders.specs.Marks.{AreCounted, CountedAt};

use crate::segment::segment_at;
use ix_device::Device;
use ix_ends::Ends;
use ix_legal::Level;
use ix_num::Memory;
use ix_rec::{BranchKind, Phys};
use std::alloc::Global;

// A mark a number, set at those of wires.
fn wires(alloc: Global, device: &Device, phys: &Phys, ends: &Ends) -> Result<Vec<bool>, Memory>
    requires ends { AreEnds device.now phys.now ends.now }
    ensures { IfOk result (λ marks. CountedAt device.now ends.now phys.now 0 0 marks.items) }
{
    let mut marks = Vec::new(alloc);
    for number in 0..ends.count() {
        marks.push(ends.node(number).is_none())?;
    }
    Ok(marks)
}

// Sets the marks of the ends of a net's PIPs.
fn add_pips(device: &Device, phys: &Phys, ends: &Ends, marks: &mut [bool], net: u32)
    requires ends { AreEnds device.now phys.now ends.now }
    requires net { net < length phys.now.nets }
    requires marks { CountedAt device.now ends.now phys.now net 0 marks.old }
    ensures { CountedAt device.now ends.now phys.now (suc net) 0 marks.new }
{
    let segments = phys.nets.at(net as usize);
    let row = ends.row(net);
    for k in 0..row.len() {
        match segment_at(segments, k).kind {
            BranchKind::Pip => {
                marks[row[k].from as usize] = true;
                marks[row[k].to as usize] = true;
            }
            _ => {}
        }
    }
}

// Sets the marks of the ends of all PIPs.
fn add_all_pips(device: &Device, phys: &Phys, ends: &Ends, marks: &mut [bool])
    requires ends { AreEnds device.now phys.now ends.now }
    requires small { IsSmall phys.now }
    requires marks { CountedAt device.now ends.now phys.now 0 0 marks.old }
    ensures { CountedAt device.now ends.now phys.now (length phys.now.nets) 0 marks.new }
{
    for net in 0..phys.nets.len() {
        add_pips(device, phys, ends, marks, net as u32);
    }
}

/// By number, of which resources it is asked whether they are shared: in a routed netlist of all, in
/// a placed one of wires and of nodes at which a PIP of the netlist ends.
pub fn counted(
    alloc: Global,
    device: &Device,
    phys: &Phys,
    ends: &Ends,
    level: Level,
) -> Result<Vec<bool>, Memory>
    requires ends { AreEnds device.now phys.now ends.now }
    requires small { IsSmall phys.now }
    ensures { IfOk result (λ counted.
        AreCounted level device.now phys.now ends.now counted.items) }
{
    match level {
        Level::Routed => {
            let mut all = Vec::new(alloc);
            all.resize(ends.count() as usize, true)?;
            Ok(all)
        }
        Level::Placed => {
            let mut marks = wires(alloc, device, phys, ends)?;
            add_all_pips(device, phys, ends, &mut marks);
            Ok(marks)
        }
    }
}
