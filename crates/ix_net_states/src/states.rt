//! What is on each net.

ghost use Rattle.std.specs.Prelude.{◌≡◌, ◌<◌, ◌+◌, length, IfOk, IfSome};
ghost use Rattle.ix_hierarchy.specs.Hierarchy.{Path};
ghost use Rattle.ix_joined.specs.Joining.{Known, IsJoined};
ghost use Rattle.ix_joined.specs.Roles.{role_towards};
ghost use Rattle.ix_net_states.specs.Least.{AreStatesOf};
ghost use Rattle.ix_net_states.specs.Walking.{AreReady, IsDone, IsLeafAt, on_net};
ghost use Rattle.ix_joined.specs.States.{AreNetStates, AreStates};

use ix_joined::{Joined, NetState, TopBit, role_of_bit};
use ix_num::Memory;
use ix_pins::{pin, pins};
use ix_rec::{Constants, NetlistRec};
use std::alloc::Global;

// Adds a bit of the top.
fn put_bit(states: &mut [NetState], bit: &TopBit)
    requires { IfSome bit.now.net (λ net. net < length states.old) }
    ensures { states.new ≡ on_net states.old bit.now.net (role_towards bit.now.dir) }
{
    if let Some(net) = bit.net {
        let state = states[net as usize];
        states[net as usize] = state.with(role_of_bit(bit.dir));
    }
}

// Adds the bits of the top.
fn put_bits(
    states: &mut [NetState],
    rec: &NetlistRec,
    constants: &Option<Constants>,
    joined: &Joined,
    bits: &[TopBit],
)
    requires ready { (known : Known) × AreReady known rec.now joined.now constants.now bits.now }
    requires many { length states.old ≡ length joined.now.firsts.items }
    ensures { (known : Known) → AreReady known rec.now joined.now constants.now bits.now
        → AreStatesOf known rec.now joined.now (λ _. ⊥) states.old
        → AreStatesOf known rec.now joined.now (IsDone known 1) states.new }
{
    for k in 0..bits.len() {
        put_bit(states, &bits[k]);
    }
}

// Adds the pins of a leaf.
fn put_pins(
    states: &mut [NetState],
    rec: &NetlistRec,
    constants: &Option<Constants>,
    joined: &Joined,
    instance: u32,
)
    requires joined { (known : Known) × (path : Path) × IsJoined known rec.now joined.now
        × (constants.now ≡ known.device.constants) × IsLeafAt known rec.now instance path }
    requires many { length states.old ≡ length joined.now.firsts.items }
    ensures { (known : Known) (path : Path) → IsJoined known rec.now joined.now
        → constants.now ≡ known.device.constants → IsLeafAt known rec.now instance path
        → AreStatesOf known rec.now joined.now (IsDone known instance) states.old
        → AreStatesOf known rec.now joined.now (IsDone known (instance + 1)) states.new }
{
    let (start, end) = pins(joined, instance);
    for place in start..end {
        let pin = pin(rec, constants, joined, instance, place);
        let state = states[pin.net as usize];
        states[pin.net as usize] = state.with(pin.role);
    }
}

// Adds the pins of an instance, where it is a leaf.
fn put_instance(
    states: &mut [NetState],
    rec: &NetlistRec,
    constants: &Option<Constants>,
    joined: &Joined,
    instance: u32,
)
    requires joined { (known : Known) × IsJoined known rec.now joined.now
        × (constants.now ≡ known.device.constants) }
    requires there { instance < length joined.now.instances.items }
    requires below { 0 < instance }
    requires many { length states.old ≡ length joined.now.firsts.items }
    ensures { (known : Known) → IsJoined known rec.now joined.now
        → constants.now ≡ known.device.constants
        → AreStatesOf known rec.now joined.now (IsDone known instance) states.old
        → AreStatesOf known rec.now joined.now (IsDone known (instance + 1)) states.new }
{
    if joined.is_leaf(instance) {
        put_pins(states, rec, constants, joined, instance);
    }
}

// Adds all pins.
fn put_all(
    states: &mut [NetState],
    rec: &NetlistRec,
    constants: &Option<Constants>,
    joined: &Joined,
    bits: &[TopBit],
)
    requires ready { (known : Known) × AreReady known rec.now joined.now constants.now bits.now }
    requires many { length states.old ≡ length joined.now.firsts.items }
    ensures { (known : Known) → AreReady known rec.now joined.now constants.now bits.now
        → AreStatesOf known rec.now joined.now (λ _. ⊥) states.old
        → AreStates known rec.now joined.now states.new }
{
    put_bits(states, rec, constants, joined, bits);
    for instance in 1..joined.instances.len() as u32 {
        put_instance(states, rec, constants, joined, instance);
    }
}

/// What is on each net, by its first occurrence.
///
/// # Errors
///
/// `Memory` alone.
pub fn net_states(
    alloc: Global,
    rec: &NetlistRec,
    constants: &Option<Constants>,
    joined: &Joined,
    bits: &[TopBit],
) -> Result<Vec<NetState>, Memory>
    requires ready { (known : Known) × AreReady known rec.now joined.now constants.now bits.now }
    ensures by_number { (known : Known) → AreReady known rec.now joined.now constants.now bits.now
        → IfOk result (λ states. AreStates known rec.now joined.now states.items) }
    ensures by_net { (known : Known) → AreReady known rec.now joined.now constants.now bits.now
        → IfOk result (λ states. AreNetStates known rec.now joined.now states.items) }
{
    let mut states = Vec::new(alloc);
    states.resize(joined.firsts.len(), NetState::nothing())?;
    put_all(&mut states, rec, constants, joined, bits);
    Ok(states)
}
