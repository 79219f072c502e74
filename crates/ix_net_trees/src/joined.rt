//! The rule that a segment begins where its parent ends (L4).

ghost use Rattle.std.specs.Prelude.{◌≡◌, ◌<◌, ◌≤◌, ◌-◌, ◌↔◌, ℕ, length, slice_index, IfOk, OnOk};
ghost use Rattle.std.specs.Prelude.{IsTrue};
ghost use Rattle.ix_legal.specs.Legal.{IsSmall};
ghost use Rattle.ix_legal.specs.Spots.{Tells};
ghost use Rattle.ix_legal.specs.Trees.{IsJoined};
ghost use Rattle.ix_legal.specs.declared.spot.Spot.TheVariants.{SegmentAt};
ghost use Rattle.ix_ends.specs.Ends.{AreEnds};
ghost use Rattle.ix_net_trees.specs.Told.{IsAt, TellsOfNet};
ghost use Rattle.ix_net_trees.specs.Wired.{AreWired};

use crate::branches::branch_at;
use crate::wiring::Wiring;
use ix_device::Device;
use ix_ends::Ends;
use ix_legal::Spot;
use ix_num::Memory;
use ix_rec::Phys;
use std::alloc::Global;

// Whether a segment of this depth begins at the last out-end at the depth above, if there is one.
fn leaves_last(last: &[u32], depth: usize, from: u32) -> bool
    requires { depth ≤ length last.now }
    ensures { IsTrue result ↔ (0 < depth → slice_index last.now (depth - 1) ≡ from) }
{
    depth == 0 || last[depth - 1] == from
}

// Keeps the last out-end at a depth.
fn keep_last(last: &mut Vec<u32>, depth: usize, to: u32) -> Result<(), Memory>
    requires { depth ≤ length last.old.items }
    ensures here { OnOk result (IsAt last.new.items depth to) }
    ensures above { OnOk result ((d other : ℕ) → d < depth → IsAt last.old.items d other
        → IsAt last.new.items d other) }
{
    if depth < last.len() {
        last[depth] = to;
    } else {
        last.push(to)?;
    }
    Ok(())
}

// The first segment of a net that doesn't keep L4. By depth the array keeps the out-end of the last
// segment there; what it has at first is of no account.
fn first_unjoined_in(
    wiring: &Wiring<'_>,
    n: u32,
    last: &mut Vec<u32>,
) -> Result<Option<u32>, Memory>
    requires wired { AreWired wiring.now }
    requires there { n < length wiring.now.phys.now.nets }
    ensures { IfOk result (TellsOfNet (λ k.
        IsJoined wiring.now.device.now wiring.now.phys.now (SegmentAt n k))) }
{
    let net = wiring.phys.nets.at(n as usize);
    let row = wiring.ends.row(n);
    // Sources and stubs are in preorder each.
    let _sources = net.sources.len();
    let _stubs = net.stubs.len();
    for k in 0..row.len() {
        let pair = row[k];
        let depth = branch_at(net, k).depth as usize;
        if !leaves_last(last, depth, pair.from) {
            return Ok(Some(k as u32));
        }
        keep_last(last, depth, pair.to)?;
    }
    Ok(None)
}

/// The first segment that breaks L4: whose in-end isn't the out-end of its parent. The ends are
/// those of the netlist on the device. It takes time by the segments, and 4 bytes a step of the
/// deepest tree.
///
/// # Errors
///
/// `Memory`.
pub fn first_unjoined(
    alloc: Global,
    device: &Device,
    phys: &Phys,
    ends: &Ends,
) -> Result<Option<Spot>, Memory>
    requires small { IsSmall phys.now }
    requires ends { AreEnds device.now phys.now ends.now }
    ensures told { IfOk result (Tells (IsJoined device.now phys.now)) }
{
    let wiring = Wiring { device, phys, ends };
    let mut last = Vec::new(alloc);
    for n in 0..phys.nets.len() {
        let number = n as u32;
        if let Some(k) = first_unjoined_in(&wiring, number, &mut last)? {
            return Ok(Some(Spot::SegmentAt(number, k)));
        }
    }
    Ok(None)
}
