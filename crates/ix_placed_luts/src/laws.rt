//! A law on the functions of placed LUTs, over the definitions alone.

ghost use Rattle.ix_placed_luts.specs.Laws.{FunctionIsOne};

use ix_pin_maps::places_are_one;

/// A placed LUT has one function at most.
pub fn function_is_one()
    ensures law { FunctionIsOne }
{
    places_are_one();
}
