//! The earlier one of two names, or of two pins.

ghost use Rattle.std.specs.Prelude.{◌≡◌, ◌<◌, length, Some, IfSome};
ghost use Rattle.std.specs.Ordering.{is_lt};
ghost use Rattle.ix_differences.specs.Earliest.{ArePinNames, IsName, name_order, earlier};
ghost use Rattle.ix_differences.specs.Earliest.{pin_name_order};

use ix_num::NameId;
use ix_strings::Names;

/// A pin by name.
#[derive(Clone, Copy)]
pub(crate) struct PinName {
    /// The name of its cell.
    pub cell: NameId,
    /// Its own.
    pub pin: NameId,
}

// Whether a name comes before another one in the order of bytes.
fn is_before(names: &Names, x: NameId, y: NameId) -> bool
    requires x { IsName names.now x }
    requires y { IsName names.now y }
    ensures { result ≡ is_lt (name_order names.now x y) }
{
    names.name(x) < names.name(y)
}

// Whether a pin comes before another one: by the names of their cells, and then by their own.
fn is_pin_before(names: &Names, x: &PinName, y: &PinName) -> bool
    requires x { ArePinNames names.now x.now }
    requires y { ArePinNames names.now y.now }
    ensures { result ≡ is_lt (pin_name_order names.now x.now y.now) }
{
    (names.name(x.cell), names.name(x.pin)) < (names.name(y.cell), names.name(y.pin))
}

/// The earlier one of two names, where there are two.
pub(crate) fn earlier_cell(names: &Names, x: Option<NameId>, y: Option<NameId>) -> Option<NameId>
    requires x { IfSome x (IsName names.now) }
    requires y { IfSome y (IsName names.now) }
    ensures { result ≡ earlier (name_order names.now) x y }
{
    let Some(one) = x else {
        return y;
    };
    let Some(other) = y else {
        return x;
    };
    if is_before(names, other, one) { y } else { x }
}

// The earlier one of two pins.
fn earlier_of(names: &Names, one: PinName, other: PinName) -> PinName
    requires one { ArePinNames names.now one }
    requires other { ArePinNames names.now other }
    ensures { Some result ≡ earlier (pin_name_order names.now) (Some one) (Some other) }
{
    if is_pin_before(names, &other, &one) {
        other
    } else {
        one
    }
}

/// The earlier one of two pins, where there are two.
pub(crate) fn earlier_pin(names: &Names, x: Option<PinName>, y: Option<PinName>) -> Option<PinName>
    requires x { IfSome x (ArePinNames names.now) }
    requires y { IfSome y (ArePinNames names.now) }
    ensures { result ≡ earlier (pin_name_order names.now) x y }
{
    match (x, y) {
        (Some(one), Some(other)) => Some(earlier_of(names, one, other)),
        (Some(one), None) => Some(one),
        (None, y) => y,
    }
}
