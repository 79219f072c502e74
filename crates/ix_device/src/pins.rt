//! The pins by which a BEL takes a cell.

ghost use Rattle.std.specs.Prelude.{◌≡◌, ◌<◌, Some, length, slice_get};
ghost use Rattle.ix_device.specs.PinsListed.{pins_listed};

use ix_first::FirstByKey;
use ix_keys::Key;
use ix_num::{BelPinId, NameId};
use ix_rec::{CellBelPinEntry, Items};

/// The pins of a cell type on a BEL that admits it: each cell pin with its BEL pin, in the order of
/// the device's pin map. In contracts it is the list of them.
#[derive(Clone, Copy)]
pub struct PinList<'a> {
    pub(crate) pins: &'a Items<CellBelPinEntry>,
    pub(crate) bel: NameId,
    pub(crate) bel_pins: &'a FirstByKey<BelPinId>,
}

impl<'a> PinList<'a> {
    /// How many pins there are.
    pub fn len(&self) -> usize
        ensures { result ≡ length (pins_listed self.now) }
    {
        self.pins.len()
    }

    /// The cell pin at a place, from 0, and the number of its BEL pin.
    pub fn at(&self, i: usize) -> (NameId, BelPinId)
        requires { i < length (pins_listed self.now) }
        ensures { slice_get (pins_listed self.now) i ≡ Some result }
    {
        let entry = self.pins.at(i);
        let key = Key::new(0, self.bel.get(), entry.bel_pin.get());
        match self.bel_pins.get(key) {
            Some(pin) => (entry.cell_pin, pin),
            None => (entry.cell_pin, BelPinId::new(0)),
        }
    }
}
