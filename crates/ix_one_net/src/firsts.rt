//! The first occurrence of each net.

ghost use Rattle.std.specs.Prelude.{◌≡◌, ◌<◌, ◌≤◌, ◌+◌, ◌^◌, ℕ, List, IfOk, Some, length};
ghost use Rattle.std.specs.Prelude.{slice_get};
ghost use Rattle.std.specs.Prelude.{slice_index};
ghost use Rattle.ix_rec.specs.declared.device.DeviceRec.{DeviceRec};
ghost use Rattle.ix_rec.specs.declared.netlist.NetlistRec.{NetlistRec};
ghost use Rattle.ix_hierarchy.specs.Hierarchy.{Path};
ghost use Rattle.ix_hierarchy.specs.Lists.{AreFirsts};
ghost use Rattle.ix_roots.specs.Forest.{AreUp, IsForest};
ghost use Rattle.ix_one_net.specs.Joinable.{AreJoinable};
ghost use Rattle.ix_one_net.specs.Joining.{IsKnown, CrossesInto, AreJoined};

use ix_bit_rows::Rows;
use ix_hierarchy::{Instance, Kind};
use ix_instance_lists::numbers_are_order;
use ix_num::Memory;
use ix_pin_rows::rows_of;
use ix_roots::{alone, join, settle};
use std::alloc::Global;

// Joins what crosses into an instance with an inside.
fn cross_into(
    above: &mut [u32],
    kinds: &[Kind],
    outer: &Rows,
    inner: &[Option<u32>],
    instances: &[Instance],
    instance: u32,
)
    requires up { AreUp above.old }
    requires few { length above.old < 2 ^ 32 }
    requires known { IsKnown kinds.now outer.now inner.now instances.now (length above.old) }
    requires below { 0 < instance }
    requires inside { instance < length instances.now }
    ensures up { AreUp above.new }
    ensures many { length above.new ≡ length above.old }
    ensures joins { CrossesInto kinds.now outer.now inner.now instances.now (length above.old)
        above.old above.new instance }
{
    let rows = rows_of(kinds, outer, instances, instance);
    let first_net = instances[instance as usize].first_net;
    for place in rows.start..rows.end {
        if let Some(net) = inner[place] {
            join(above, rows.first_net + outer.at(place).net, first_net + net);
        }
    }
}

// Joins what crosses into an instance.
fn join_into(
    above: &mut [u32],
    kinds: &[Kind],
    outer: &Rows,
    inner: &[Option<u32>],
    instances: &[Instance],
    instance: u32,
)
    requires up { AreUp above.old }
    requires few { length above.old < 2 ^ 32 }
    requires known { IsKnown kinds.now outer.now inner.now instances.now (length above.old) }
    requires below { 0 < instance }
    requires inside { instance < length instances.now }
    ensures up { AreUp above.new }
    ensures many { length above.new ≡ length above.old }
    ensures joins { CrossesInto kinds.now outer.now inner.now instances.now (length above.old)
        above.old above.new instance }
{
    if let Kind::Inside(_) = kinds[instances[instance as usize].declaration as usize] {
        cross_into(above, kinds, outer, inner, instances, instance);
    }
}

// Joins what crosses into each instance, where nothing is joined yet.
fn join_all(
    above: &mut [u32],
    kinds: &[Kind],
    outer: &Rows,
    inner: &[Option<u32>],
    instances: &[Instance],
)
    requires up { AreUp above.old }
    requires few { length above.old < 2 ^ 32 }
    requires few_instances { length instances.now < 2 ^ 32 }
    requires known { IsKnown kinds.now outer.now inner.now instances.now (length above.old) }
    requires apart { IsForest above.old (λ k. k) }
    ensures up { AreUp above.new }
    ensures joined { AreJoined kinds.now outer.now inner.now instances.now (length above.old)
        above.new (length instances.now) }
{
    for instance in 1..instances.len() as u32 {
        join_into(above, kinds, outer, inner, instances, instance);
    }
}

/// For each occurrence of a net the first one of its net, by their numbers. `Memory` is the only
/// error. The steps are as many as port bits that nets name in all instances, with the halved ways
/// up from them.
pub fn first_occurrences(
    alloc: Global,
    kinds: &[Kind],
    outer: &Rows,
    inner: &[Option<u32>],
    instances: &[Instance],
    nets: u32,
) -> Result<Vec<u32>, Memory>
    requires { (design : NetlistRec) × (device : DeviceRec) × (paths : List Path)
        × AreJoinable design device kinds.now outer.now inner.now instances.now paths nets }
    ensures many { IfOk result (λ firsts. length firsts.items ≡ nets) }
    ensures low { IfOk result (λ firsts. (k : ℕ) → k < nets → slice_index firsts.items k ≤ k) }
    ensures own { IfOk result (λ firsts. (k : ℕ) → k < nets
        → slice_index firsts.items (slice_index firsts.items k) ≡ slice_index firsts.items k) }
    ensures firsts { IfOk result (λ firsts. (design : NetlistRec) (device : DeviceRec)
        (paths : List Path)
        → AreJoinable design device kinds.now outer.now inner.now instances.now paths nets
        → AreFirsts design instances.now paths firsts.items) }
{
    numbers_are_order();
    let mut above = alone(alloc, nets)?;
    join_all(&mut above, kinds, outer, inner, instances);
    settle(&mut above);
    Ok(above)
}
