//! The first nets that break N3 and N4.

ghost use Rattle.std.specs.Prelude.{◌≡◌, ◌<◌, ◌^◌, length, MatchOption};
ghost use Rattle.ix_rec.specs.declared.netlist.NetlistRec.{NetlistRec as NetlistSeen};
ghost use Rattle.ix_hierarchy.specs.Broken.{BreaksN3, BreaksN4, NoneBreaks};
ghost use Rattle.ix_joined.specs.declared.joined.Joined.{Joined};
ghost use Rattle.ix_joined.specs.Joining.{Known, IsJoined};
ghost use Rattle.ix_joined.specs.States.{AreStates, AreNetStates};
ghost use Rattle.ix_net_states.specs.Least.{IsFirstBroken, is_undriven as is_undriven_seen};

use ix_joined::NetState;

/// The net with the first occurrence that has two drivers, by the number of that.
pub fn first_driven_twice(states: &[NetState]) -> Option<u32>
    requires { length states.now < 2 ^ 32 }
    ensures { (known : Known) (design : NetlistSeen) (joined : Joined)
        → IsJoined known design joined → AreStates known design joined states.now
        → MatchOption result (NoneBreaks (BreaksN3 known.names known.device design))
        (IsFirstBroken known design joined (BreaksN3 known.names known.device design)) }
{
    for net in 0..states.len() {
        if states[net].driven_twice {
            return Some(net as u32);
        }
    }
    None
}

// Whether a net has a sink and no driver.
fn is_undriven(state: &NetState) -> bool
    ensures { result ≡ is_undriven_seen state.now }
{
    state.has_sink && !state.driven
}

/// The net with the first occurrence that has a sink and no driver, by the number of that.
pub fn first_undriven(states: &[NetState]) -> Option<u32>
    requires { length states.now < 2 ^ 32 }
    ensures { (known : Known) (design : NetlistSeen) (joined : Joined)
        → IsJoined known design joined → AreStates known design joined states.now
        → MatchOption result (NoneBreaks (BreaksN4 known.names known.device design))
        (IsFirstBroken known design joined (BreaksN4 known.names known.device design)) }
{
    for net in 0..states.len() {
        if is_undriven(&states[net]) {
            return Some(net as u32);
        }
    }
    None
}
