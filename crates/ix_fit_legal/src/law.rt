//! A law on netlists of first fit, over the definitions alone.

ghost use Rattle.ix_fit_legal.specs.Laws.{FitsAreLegal};

use ix_first_fit::fits_have_own_places;

/// Where first fit gives a netlist of cells of different names, of which none is a LUT, on a valid
/// device, the netlist is legal at level routed.
pub fn fits_are_legal()
    ensures law { FitsAreLegal }
{
    fits_have_own_places();
}
