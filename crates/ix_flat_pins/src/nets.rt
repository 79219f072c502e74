//! The nets of the flat design.

ghost use Rattle.std.specs.Prelude.{◌≡◌, ◌<◌, ◌≤◌, ◌^◌, ℕ, length, slice_get, Some, IfOk};
ghost use Rattle.ix_joined.specs.declared.state.NetState.{NetState as StateSeen};
ghost use Rattle.ix_flat_pins.specs.Items.{AreNumbersOf, is_driver as is_driver_seen, net_of};
ghost use Rattle.ix_flat_pins.specs.Items.{net_with};

use ix_joined::{NetState, Role};
use ix_num::{Constant, Memory, NetId, NetRef};
use std::alloc::Global;

/// Whether a pin drives its net, other than with a constant.
pub(crate) fn is_driver(role: Role) -> bool
    ensures { result ≡ is_driver_seen role }
{
    match role {
        Role::Driver => true,
        Role::Constant(_) => false,
        Role::Sink => false,
        Role::Nothing => false,
    }
}

// The net with this constant, or of this number.
fn net_of_constant(constant: Option<Constant>, number: u32) -> NetRef
    ensures { result ≡ net_with constant number }
{
    match constant {
        Some(Constant::Gnd) => NetRef::Gnd,
        Some(Constant::Vcc) => NetRef::Vcc,
        None => NetRef::Signal(NetId::new(number)),
    }
}

/// The net of the flat design with this first occurrence; none where it has no sink. `numbers` has
/// the number of each signal net, by its first occurrence.
pub(crate) fn net_ref(states: &[NetState], numbers: &[u32], net: u32) -> Option<NetRef>
    requires state { net < length states.now }
    requires number { net < length numbers.now }
    ensures { (state : StateSeen) (number : ℕ) → slice_get states.now net ≡ Some state
        → slice_get numbers.now net ≡ Some number → result ≡ net_of state number }
{
    let state = states[net as usize];
    if state.has_sink {
        Some(net_of_constant(state.constant, numbers[net as usize]))
    } else {
        None
    }
}

/// The number of each signal net, by its first occurrence.
pub(crate) fn numbers_of(alloc: Global, signals: &[u32], count: usize) -> Result<Vec<u32>, Memory>
    requires within { (n number : ℕ) → slice_get signals.now n ≡ Some number → number < count }
    requires differ { (m n number : ℕ) → slice_get signals.now m ≡ Some number
        → slice_get signals.now n ≡ Some number → m ≡ n }
    requires few { length signals.now ≤ 2 ^ 32 }
    ensures many { IfOk result (λ numbers. length numbers.items ≡ count) }
    ensures numbers { IfOk result (λ numbers. AreNumbersOf signals.now numbers.items) }
{
    let mut numbers = Vec::new(alloc);
    numbers.resize(count, 0u32)?;
    for number in 0..signals.len() {
        numbers[signals[number] as usize] = number as u32;
    }
    Ok(numbers)
}
