//! Where a placed LUT's pin map has its inputs.

ghost use Rattle.std.specs.Prelude.{◌≡◌, ◌≢◌, ◌<◌, ◌≤◌, ◌++◌, ◌∷◌, [], ℕ, List, length, nat_eq};
ghost use Rattle.std.specs.Prelude.{MatchOption, IfSome};
ghost use Rattle.std.specs.List.{list_any, position};
ghost use Rattle.ix_lut.specs.Tables.{AllDiffer};
ghost use Rattle.ix_legal.specs.Placements.{MapsInputs, pins_for};

use ix_num::NameId;
use ix_rec::{CellPlacement, Items, LutBel, LutCell};
use std::marker::Model;

/// The places of a LUT's inputs among its BEL's, at most six. In contracts it is the list of them.
#[derive(Drop)]
pub struct InputPlaces {
    places: [u32; 6],
    count: usize,
}

impl Model for InputPlaces {
    ghost use Rattle.std.specs.Prelude.{ℕ, List, take, ◌≤◌};

    ghost Value = { List ℕ };

    ghost view = { λ p. take p.count p.places };

    ghost invariant = { λ p. p.count ≤ 6 };
}

impl InputPlaces {
    // No places.
    fn new() -> InputPlaces
        ensures { result ≡ [] }
    {
        InputPlaces {
            places: [0; 6],
            count: 0,
        }
    }

    // Whether a place is one of them.
    fn has(&self, place: u32) -> bool
        ensures { result ≡ list_any (nat_eq place) self.now }
    {
        self.places[..self.count].iter().any(|p| place == *p)
    }

    // Puts a place behind them.
    fn push(&mut self, place: u32)
        requires { length self.old < 6 }
        ensures { self.new ≡ self.old ++ place ∷ [] }
    {
        let count = self.count;
        self.places[count] = place;
        self.count = count + 1;
    }

    /// The places, in the order of the LUT's inputs.
    pub fn as_slice(&self) -> &[u32]
        ensures places { result.now ≡ self.now }
        ensures few { length self.now ≤ 6 }
    {
        &self.places[..self.count]
    }
}

// The one BEL pin on which a pin map has this cell pin; none where it has it on none, or more than
// once.
fn pin_for(placement: &CellPlacement, cell_pin: NameId) -> Option<NameId>
    ensures { MatchOption result ((pin : ℕ) → pins_for placement.now cell_pin ≢ pin ∷ [])
        (λ pin. pins_for placement.now cell_pin ≡ pin ∷ []) }
{
    let mut found = None;
    for i in 0..placement.pin_map.len() {
        let entry = placement.pin_map.at(i);
        if entry.cell_pin == cell_pin {
            if found.is_some() {
                return None;
            }
            found = Some(entry.bel_pin);
        }
    }
    found
}

// The place of a name in a list; none exactly where it isn't there.
fn place_in(names: &Items<NameId>, name: NameId) -> Option<usize>
    ensures place { result ≡ position (nat_eq name) names.now }
    ensures inside { IfSome result (λ place. place < length names.now) }
{
    names.as_slice().iter().position(|n| name == *n)
}

/// Where a placed LUT's pin map has its inputs among those of its BEL, in the order of the LUT's
/// inputs; none exactly where not each input is mapped once, to an input of its own of the BEL.
/// There is one such list at most. It takes a walk over the pin map for each input.
///
/// A LUT type has at most 6 inputs. So has a LUT BEL of a device, and where it admits a LUT the
/// names of its inputs differ.
pub fn input_places(lut: &LutCell, bel: &LutBel, placement: &CellPlacement) -> Option<InputPlaces>
    requires few { length lut.now.input_pins ≤ 6 }
    requires few_of_bel { length bel.now.input_pins ≤ 6 }
    requires differ { AllDiffer bel.now.input_pins }
    ensures { MatchOption result
        ((places : List ℕ) → MapsInputs lut.now bel.now placement.now places → ⊥)
        (MapsInputs lut.now bel.now placement.now) }
{
    let mut places = InputPlaces::new();
    for i in 0..lut.input_pins.len() {
        let pin = pin_for(placement, *lut.input_pins.at(i))?;
        let place = place_in(&bel.input_pins, pin)? as u32;
        if places.has(place) {
            return None;
        }
        places.push(place);
    }
    Some(places)
}
