//! What a list of instances tells.

ghost use Rattle.std.specs.Prelude.{◌≡◌, ◌<◌, ◌^◌, ℕ, List, Some, length, slice_get};
ghost use Rattle.ix_rec.specs.declared.netlist.NetlistRec.{NetlistRec};
ghost use Rattle.ix_hierarchy.specs.Hierarchy.{Path, instance_at};
ghost use Rattle.ix_hierarchy.specs.Lists.{AreInstances};
ghost use Rattle.ix_instance_lists.specs.Listed.{HasNet, IsAmong};

use ix_hierarchy::Instance;
use ix_rec::{CellInstance, NetlistRec};

/// The instance of an occurrence, by its number among those of all instances.
pub fn of_net(instances: &[Instance], occurrence: u32) -> u32
    requires few { length instances.now < 2 ^ 32 }
    requires among { IsAmong instances.now occurrence }
    ensures { (design : NetlistRec) (paths : List Path) (nets : ℕ)
        → AreInstances design instances.now paths nets → occurrence < nets
        → HasNet design instances.now result occurrence }
{
    let behind = instances.partition_point(|one| one.first_net <= occurrence);
    behind as u32 - 1
}

/// The record of an instance.
pub fn record_of<'a>(rec: &'a NetlistRec, instances: &[Instance], instance: u32) -> &'a CellInstance
    requires listed { (paths : List Path) × (nets : ℕ)
        × AreInstances rec.now instances.now paths nets }
    requires inside { instance < length instances.now }
    ensures { (paths : List Path) (nets : ℕ) → AreInstances rec.now instances.now paths nets
        → (path : Path) → slice_get paths instance ≡ Some path
        → instance_at rec.now path ≡ Some result.now }
{
    if instance == 0 {
        &rec.top_inst
    } else {
        rec.inst_list
            .at(instances[instance as usize].number as usize)
    }
}
