//! The instances and nets of a netlist.

ghost use Rattle.std.specs.Prelude.{List, IfOk};
ghost use Rattle.ix_message.specs.Shape.{Text};
ghost use Rattle.ix_rec.specs.declared.device.DeviceRec.{DeviceRec};
ghost use Rattle.ix_join.specs.Asked.{AreAllJoined, IsAsked};

use ix_bit_rows::Rows;
use ix_hierarchy::Kind;
use ix_inner_nets::inner_nets;
use ix_instance_lists::numbers_are_order;
use ix_instances::Instances;
use ix_joined::{Joined, TopBit};
use ix_num::{Memory, NameId};
use ix_one_net::first_occurrences;
use ix_rec::NetlistRec;
use ix_top_bits::top_bits;
use std::alloc::Global;

/// The instances and nets of a netlist that keeps N1, N2, N9 and N10, and the bits of its top, from
/// what its declarations are, the rows of its cells, of their own bits and of those of instances,
/// and the written names of the latter.
///
/// # Errors
///
/// `Memory` alone.
pub fn join_all(
    alloc: Global,
    rec: &NetlistRec,
    kinds: Vec<Kind>,
    own: &Rows,
    outer: Rows,
    written: Vec<NameId>,
) -> Result<(Joined, Vec<TopBit>), Memory>
    requires { (names : List Text) × (device : DeviceRec)
        × IsAsked names device rec.now kinds.items own.now outer written.items }
    ensures { (names : List Text) (device : DeviceRec)
        → IsAsked names device rec.now kinds.items own.now outer written.items
        → IfOk result (λ pair. AreAllJoined names device rec.now pair.0 pair.1.items) }
{
    numbers_are_order();
    let inner = inner_nets(alloc, rec, &kinds, own, &outer)?;
    let Instances { all, nets } = Instances::new(alloc, rec, &kinds)?;
    let firsts = first_occurrences(alloc, &kinds, &outer, &inner, &all, nets)?;
    let bits = top_bits(alloc, rec, &kinds, own, &firsts)?;
    let joined = Joined {
        kinds,
        outer,
        written,
        instances: all,
        firsts,
    };
    Ok((joined, bits))
}
