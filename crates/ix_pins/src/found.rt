//! The pins of leaves that are on nets.

ghost use Rattle.std.specs.Prelude.{◌≡◌, ◌<◌, ℕ, Some, length, slice_get};
ghost use Rattle.ix_rec.specs.declared.netlist.NetlistRec.{NetlistRec as NetlistSeen};
ghost use Rattle.ix_hierarchy.specs.Hierarchy.{Path};
ghost use Rattle.ix_joined.specs.Joining.{Known, IsJoined, HasJoined};
ghost use Rattle.ix_pins.specs.Places.{ArePins, IsPinPlace, IsFoundAt};

use ix_joined::{Joined, LeafPin, role_of};
use ix_pin_rows::rows_of;
use ix_rec::{Constants, NetlistRec};

/// The rows of an instance's pins, in the list of rows: where they begin and end. The instance is
/// below the top.
pub fn pins(joined: &Joined, instance: u32) -> (usize, usize)
    requires joined { HasJoined joined.now }
    requires there { instance < length joined.now.instances.items }
    requires below { 0 < instance }
    ensures { (known : Known) (design : NetlistSeen) (path : Path)
        → IsJoined known design joined.now → slice_get known.paths instance ≡ Some path
        → ArePins known design joined.now instance path result.0 result.1 }
{
    let rows = rows_of(&joined.kinds, &joined.outer, &joined.instances, instance);
    (rows.start, rows.end)
}

/// The pin of a leaf's row, by the place of the row in the list of rows.
pub fn pin(
    rec: &NetlistRec,
    constants: &Option<Constants>,
    joined: &Joined,
    instance: u32,
    place: usize,
) -> LeafPin
    requires joined { (known : Known) × IsJoined known rec.now joined.now
        × IsPinPlace known rec.now joined.now instance place }
    ensures { (known : Known) → IsJoined known rec.now joined.now
        → constants.now ≡ known.device.constants
        → IsPinPlace known rec.now joined.now instance place
        → IsFoundAt known rec.now joined.now instance place result }
{
    let row = joined.outer.at(place);
    let parent = joined.instances[instance as usize].parent;
    let occurrence = joined.instances[parent as usize].first_net + row.net;
    let dir = rec.port_list.at(row.port as usize).dir;
    let name = joined.written[place];
    LeafPin {
        port: row.port,
        name,
        net: joined.firsts[occurrence as usize],
        role: role_of(constants, joined.kind(instance), dir, name),
    }
}
