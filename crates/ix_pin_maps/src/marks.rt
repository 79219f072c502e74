//! The device's pin map for the cell of a placement, by the names of cell pins. Each placement is a
//! turn.

ghost use Rattle.std.specs.Prelude.{◌≡◌, ◌<◌, ◌+◌, ℕ, None, length, nat_eq, IfOk};
ghost use Rattle.ix_first.specs.First.{or_later};
ghost use Rattle.ix_device.specs.PinsListed.{pins_listed};
ghost use Rattle.ix_pin_maps.specs.Marks.{pin_under, first_pin, has_pin, AreOlder};

use ix_device::PinList;
use ix_num::{BelPinId, Memory, NameId};
use std::alloc::Global;

/// The BEL pin of a cell pin, and for which turn it was put. What earlier turns put doesn't count,
/// so nothing is cleared between turns.
#[derive(Clone, Copy)]
pub(crate) struct Mark {
    /// The turn.
    pub turn: u32,
    /// The BEL pin.
    pub pin: BelPinId,
}

/// Marks of so many names, of a turn before the first.
pub(crate) fn no_marks(alloc: Global, count: u32) -> Result<Vec<Mark>, Memory>
    ensures many { IfOk result (λ marks. length marks.items ≡ count) }
    ensures older { IfOk result (λ marks. AreOlder 1 marks.items) }
{
    let mut marks = Vec::new(alloc);
    let blank = Mark {
        turn: 0,
        pin: BelPinId::new(0),
    };
    marks.resize(count as usize, blank)?;
    Ok(marks)
}

// Puts the BEL pin of a cell pin, where the cell pin has none in this turn.
fn put(marks: &mut [Mark], turn: u32, cell_pin: NameId, pin: BelPinId)
    requires { AreOlder (turn + 1) marks.old }
    ensures pins { (name : ℕ) → name < length marks.old → pin_under turn marks.new name
        ≡ or_later (pin_under turn marks.old name) (nat_eq cell_pin name) pin }
    ensures older { AreOlder (turn + 1) marks.new }
{
    let name = cell_pin.get() as usize;
    if name < marks.len() && marks[name].turn != turn {
        marks[name] = Mark { turn, pin };
    }
}

/// Puts the pins of a list: of a cell pin that it has more than once the first.
pub(crate) fn put_pins(marks: &mut [Mark], turn: u32, pins: &PinList<'_>)
    requires { AreOlder turn marks.old }
    ensures pins { (name : ℕ) → name < length marks.old → pin_under turn marks.new name
        ≡ first_pin (pins_listed pins.now) name }
    ensures older { AreOlder (turn + 1) marks.new }
{
    for i in 0..pins.len() {
        let (cell_pin, pin) = pins.at(i);
        put(marks, turn, cell_pin, pin);
    }
}

/// Whether a cell pin is on this BEL pin.
pub(crate) fn is_on(marks: &[Mark], turn: u32, cell_pin: NameId, pin: BelPinId) -> bool
    requires { cell_pin < length marks.now }
    ensures { result ≡ has_pin (pin_under turn marks.now cell_pin) pin }
{
    let mark = marks[cell_pin.get() as usize];
    mark.turn == turn && mark.pin == pin
}
