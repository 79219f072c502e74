//! The first pin at which two designs differ.

ghost use Rattle.std.specs.Prelude.{◌≡◌, Some};
ghost use Rattle.std.specs.Bool.{Decides};
ghost use Rattle.ix_flat.specs.Range.{NumbersFit};
ghost use Rattle.ix_differences.specs.Differences.{net_at};
ghost use Rattle.ix_differences.specs.Earliest.{AgreesAt, ArePinNames, IsEarliest, IsPinIn};
ghost use Rattle.ix_differences.specs.Earliest.{pin_name_order};
ghost use Rattle.ix_differences.specs.Found.{Any};
ghost use Rattle.ix_differences.specs.Numbers.{IsReady, KnowsCell};

use crate::earliest::{PinName, earlier_pin};
use crate::named_net::NamedNet;
use crate::side::{Side, named_net, net_of};
use ix_strings::Names;

// Whether a pin is on this net.
fn is_on(side: &Side<'_>, at: &PinName, net: NamedNet) -> bool
    requires fits { NumbersFit side.now.flat.now }
    requires knows { KnowsCell side.now.flat.now side.now.numbers.now at.now.cell }
    ensures { Decides result (net_at side.now.flat.now at.now.cell at.now.pin ≡ Some net) }
{
    net_of(side, at.cell, at.pin) == Some(net)
}

// The first of a design's pins that are on nets at which the other design differs.
fn first_of(names: &Names, own: &Side<'_>, other: &Side<'_>) -> Option<PinName>
    requires own { IsReady names.now own.now.flat.now own.now.numbers.now }
    requires other { IsReady names.now other.now.flat.now other.now.numbers.now }
    ensures { IsEarliest (pin_name_order names.now) (ArePinNames names.now)
        (AgreesAt own.now.flat.now other.now.flat.now) (IsPinIn own.now.flat.now) result }
{
    let mut first = None;
    for ((cell, pin), net) in own.flat.pins.iter() {
        let at = PinName {
            cell: own.flat.cells.at(cell.get() as usize).name,
            pin: *pin,
        };
        if !is_on(other, &at, named_net(own.flat, *net)) {
            first = earlier_pin(names, first, Some(at));
        }
    }
    first
}

/// The first pin that isn't on one net in both designs, or on none in both.
pub(crate) fn first_pin(names: &Names, a: &Side<'_>, b: &Side<'_>) -> Option<PinName>
    requires a { IsReady names.now a.now.flat.now a.now.numbers.now }
    requires b { IsReady names.now b.now.flat.now b.now.numbers.now }
    ensures { IsEarliest (pin_name_order names.now) (ArePinNames names.now)
        (AgreesAt a.now.flat.now b.now.flat.now) Any result }
{
    let in_a = first_of(names, a, b);
    let in_b = first_of(names, b, a);
    earlier_pin(names, in_a, in_b)
}
