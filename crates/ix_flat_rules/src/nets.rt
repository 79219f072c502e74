//! How a net that breaks a rule is told.

ghost use Rattle.std.specs.Prelude.{◌≡◌, ◌<◌, length};
ghost use Rattle.ix_hierarchy.specs.FlatDesign.{IsNetText};
ghost use Rattle.ix_hierarchy.specs.Lists.{IsNumber};
ghost use Rattle.ix_hierarchy.specs.Nets.{Occurrence, IsFirstOf};
ghost use Rattle.ix_joined.specs.Joining.{Known, IsJoined};
ghost use Rattle.ix_flat_rules.specs.Told.{IsToldAs};

use ix_asked::{DesignFault, broken};
use ix_flat_names::net_text;
use ix_joined::Joined;
use ix_rec::{NetlistRec, Rule};
use ix_strings::Names;
use std::alloc::Global;

/// That a net breaks a rule, by the number of its first occurrence, whose flat name is told; else
/// `Memory`.
pub(crate) fn broken_at_net(
    alloc: Global,
    rec: &NetlistRec,
    names: &Names,
    joined: &Joined,
    rule: Rule,
    net: u32,
) -> DesignFault
    requires known { (known : Known) × IsJoined known rec.now joined.now
        × (known.names ≡ names.now) }
    requires there { net < length joined.now.firsts.items }
    ensures { (known : Known) (at : Occurrence) → IsJoined known rec.now joined.now
        → known.names ≡ names.now
        → IsNumber rec.now joined.now.instances.items known.paths at net
        → IsFirstOf rec.now at → IsToldAs rule (IsNetText known.names rec.now at) result }
{
    match net_text(alloc, rec, names, joined, net) {
        Ok(text) => broken(alloc, rule, text.as_str()),
        Err(_) => DesignFault::Memory,
    }
}
