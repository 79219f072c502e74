//! What first fit keeps.

ghost use Rattle.ix_first_fit.specs.Laws.{FitsHaveOwnPlaces};

/// Where first fit gives a netlist, each cell is placed once, in the order of the cells, on a BEL
/// that admits its type and that no other cell has, and each site in use has one instance, of its
/// own type.
#[tactic(auto, using(crate::proofs::Apart::own_places))]
pub fn fits_have_own_places()
    ensures { FitsHaveOwnPlaces }
{}
