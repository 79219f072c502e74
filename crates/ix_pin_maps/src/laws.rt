//! Laws on the inputs of placed LUTs, over the definitions alone.

ghost use Rattle.ix_pin_maps.specs.Laws.{PlacesAreOne, InputsDiffer};

/// A pin map has a LUT's inputs at one list of places at most, where the names of the BEL's inputs
/// differ.
pub fn places_are_one()
    ensures law { PlacesAreOne }
{}

/// The names of a BEL's inputs differ, where the BEL admits a LUT.
pub fn inputs_differ()
    ensures law { InputsDiffer }
{}
