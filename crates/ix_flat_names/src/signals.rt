//! The signal nets.

ghost use Rattle.std.specs.Prelude.{◌≡◌, ◌<◌, ◌+◌, ◌^◌, List, length, IfOk, OnOk};
ghost use Rattle.ix_rec.specs.declared.netlist.NetlistRec.{NetlistRec};
ghost use Rattle.ix_hierarchy.specs.Nets.{Occurrence};
ghost use Rattle.ix_joined.specs.declared.joined.Joined.{Joined as JoinedSeen};
ghost use Rattle.ix_joined.specs.Joining.{Known, IsJoined};
ghost use Rattle.ix_joined.specs.States.{AreNetStates};
ghost use Rattle.ix_flat_lists.specs.Listed.{AreSignalNets};
ghost use Rattle.ix_flat_names.specs.Signals.{AreSignalsTo};
ghost use Rattle.ix_flat_names.specs.Signals.{is_first_signal as is_first_signal_seen};

use ix_joined::NetState;
use ix_num::Memory;
use std::alloc::Global;

// Whether the net of a number is a signal net, and the number its first one.
fn is_first_signal(firsts: &[u32], states: &[NetState], net: usize) -> bool
    requires there { net < length firsts.now }
    requires many { length states.now ≡ length firsts.now }
    ensures { result ≡ is_first_signal_seen firsts.now states.now net }
{
    firsts[net] as usize == net && states[net].is_signal()
}

// Puts a number behind the others, where it is of a signal net.
fn put_signal(
    firsts: &[u32],
    states: &[NetState],
    net: usize,
    signals: &mut Vec<u32>,
) -> Result<(), Memory>
    requires few { length firsts.now < 2 ^ 32 }
    requires there { net < length firsts.now }
    requires many { length states.now ≡ length firsts.now }
    ensures { (known : Known) (design : NetlistRec) (joined : JoinedSeen)
        → IsJoined known design joined → joined.firsts.items ≡ firsts.now
        → AreNetStates known design joined states.now
        → AreSignalsTo known design joined net signals.old.items
        → OnOk result (AreSignalsTo known design joined (net + 1) signals.new.items) }
{
    if is_first_signal(firsts, states, net) {
        signals.push(net as u32)?;
    }
    Ok(())
}

/// The first occurrences of the signal nets, by their numbers.
///
/// # Errors
///
/// `Memory` alone.
pub fn signals_of(alloc: Global, firsts: &[u32], states: &[NetState]) -> Result<Vec<u32>, Memory>
    requires few { length firsts.now < 2 ^ 32 }
    requires many { length states.now ≡ length firsts.now }
    ensures { (known : Known) (design : NetlistRec) (joined : JoinedSeen)
        → IsJoined known design joined → joined.firsts.items ≡ firsts.now
        → AreNetStates known design joined states.now
        → IfOk result (λ signals. (nets : List Occurrence)
        × AreSignalNets known design joined signals.items nets) }
{
    let mut signals = Vec::new(alloc);
    for net in 0..firsts.len() {
        put_signal(firsts, states, net, &mut signals)?;
    }
    Ok(signals)
}
