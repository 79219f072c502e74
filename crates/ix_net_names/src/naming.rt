//! The names of signal nets.

ghost use Rattle.std.specs.Prelude.{◌≡◌, ◌+◌, ◌-◌, ◌<◌, ◌≤◌, ◌^◌, List, length, IfOk};
ghost use Rattle.ix_strings.specs.Names.{KeepsNumbers};
ghost use Rattle.ix_hierarchy.specs.Fits.{NetlistFits};
ghost use Rattle.ix_hierarchy.specs.Nets.{Occurrence};
ghost use Rattle.ix_joined.specs.Joining.{IsJoined, Known};
ghost use Rattle.ix_flat_lists.specs.Listed.{AreSignalNets};
ghost use Rattle.ix_net_names.specs.NetNames.{AreNetNames};

use ix_flat_names::net_text;
use ix_hierarchy::add_name;
use ix_joined::Joined;
use ix_names_grow::names_grow;
use ix_num::{Memory, NameId};
use ix_rec::NetlistRec;
use ix_strings::Names;
use std::alloc::Global;

/// The flat names of signal nets, by their first occurrences. They are added to the names.
///
/// # Errors
///
/// `Memory` alone.
pub fn put_net_names(
    alloc: Global,
    rec: &NetlistRec,
    names: &mut Names,
    left: &mut u32,
    joined: &Joined,
    signals: &[u32],
) -> Result<Vec<NameId>, Memory>
    requires few { length names.old + left.old < 2 ^ 32 - 1 }
    requires fits { NetlistFits (length names.old) rec.now }
    requires signals { (known : Known) × (nets : List Occurrence)
        × IsJoined known rec.now joined.now × (length known.names ≤ length names.old)
        × AreSignalNets known rec.now joined.now signals.now nets }
    ensures named { (known : Known) (nets : List Occurrence) → IsJoined known rec.now joined.now
        → AreSignalNets known rec.now joined.now signals.now nets
        → IfOk result (λ ids. AreNetNames names.new rec.now nets ids.items) }
    ensures keeps { KeepsNumbers names.old names.new }
    ensures counted { length names.new + left.new ≤ length names.old + left.old }
{
    names_grow();
    let mut ids = Vec::new(alloc);
    for k in 0..signals.len() {
        let text = net_text(alloc, rec, names, joined, signals[k])?;
        ids.push(add_name(names, left, text.as_str())?)?;
    }
    Ok(ids)
}
