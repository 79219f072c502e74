//! Inputs of LUT cells that are on no net with a sink.

ghost use Rattle.std.specs.Prelude.{◌≡◌, ◌<◌, ◌≤◌, ℕ, Some, length, slice_get};
ghost use Rattle.ix_message.specs.Shape.{Text};
ghost use Rattle.ix_hierarchy.specs.Hierarchy.{Path};
ghost use Rattle.ix_joined.specs.Joining.{Known, IsJoined};
ghost use Rattle.ix_joined.specs.States.{AreNetStates};
ghost use Rattle.ix_open_inputs.specs.Joinings.{AreOpen, IsFound, IsGiven, IsPin};

use ix_joined::{Joined, LeafPin, NetState};
use ix_num::NameId;
use ix_pins::{pin, pins};
use ix_rec::{Constants, Items, NetlistRec};

// Whether a pin has this name and is on a net that has a sink.
fn is_found(states: &[NetState], pin: LeafPin, name: NameId) -> bool
    requires { pin.net < length states.now }
    ensures { IsFound states.now pin name result }
{
    pin.name == name && states[pin.net as usize].has_sink
}

// Whether a pin of a leaf with this name is on a net that has a sink.
fn is_joined(
    rec: &NetlistRec,
    constants: &Option<Constants>,
    joined: &Joined,
    states: &[NetState],
    instance: u32,
    name: NameId,
) -> bool
    requires given { (known : Known) × (path : Path)
        × IsGiven known rec.now constants.now joined.now states.now instance path }
    ensures { (known : Known) (path : Path) (text : Text)
        → IsGiven known rec.now constants.now joined.now states.now instance path
        → slice_get known.names name ≡ Some text
        → IsPin known rec.now path text result }
{
    let (start, end) = pins(joined, instance);
    for place in start..end {
        let pin = pin(rec, constants, joined, instance, place);
        if is_found(states, pin, name) {
            return true;
        }
    }
    false
}

/// Which inputs of a LUT cell, by their names, are on no net that has a sink. The cell is a leaf,
/// by its number in preorder.
pub fn open_inputs(
    rec: &NetlistRec,
    constants: &Option<Constants>,
    joined: &Joined,
    states: &[NetState],
    inputs: &Items<NameId>,
    instance: u32,
) -> [bool; 6]
    requires given { (known : Known) × (path : Path)
        × IsGiven known rec.now constants.now joined.now states.now instance path }
    requires most { length inputs.now ≤ 6 }
    ensures { (known : Known) (path : Path)
        → IsGiven known rec.now constants.now joined.now states.now instance path
        → AreOpen known rec.now path inputs.now result }
{
    let mut open = [false; 6];
    for input in 0..inputs.len() {
        open[input] = !is_joined(rec, constants, joined, states, instance, *inputs.at(input));
    }
    open
}
