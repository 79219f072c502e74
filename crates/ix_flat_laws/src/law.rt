//! A law on flat designs, over the definitions alone.

ghost use Rattle.ix_flat_laws.specs.Laws.{FlatDesignsAreWhole};

/// A flat design of a netlist is in range, named and whole, where each input of a LUT cell is on a
/// net that has a sink, and pins on nets are told apart by their cells and their written names.
pub fn flat_designs_are_whole()
    ensures law { FlatDesignsAreWhole }
{}
