//! Laws on records that were read, over the definitions alone.

ghost use Rattle.ix_read_laws.specs.Laws.{DevicesStayNamed, FlatsStayNamed, FlatsStayWhole};
ghost use Rattle.ix_read_laws.specs.Laws.{NamesAreNoFewer};
ghost use Rattle.ix_read_laws.specs.Laws.{ReadDevicesFit, ReadNetlistsFit};

/// The numbers of a logical netlist that was read are in its lists and among the names, and each
/// port bit that a net names is of a port of its owner's declaration.
#[tactic(auto, using(crate::proofs::NamedFits::named_fits))]
pub fn read_netlists_fit()
    ensures { ReadNetlistsFit }
{}

/// The inputs of the LUT types of a device that was read are among the names.
#[tactic(auto, using(crate::proofs::NamedFits::inputs_named))]
pub fn read_devices_fit()
    ensures { ReadDevicesFit }
{}

/// Where each name keeps its number, there are no fewer names.
pub fn names_are_no_fewer()
    ensures { NamesAreNoFewer }
{}

/// A device whose names are among those of a table is named by a larger one in which they keep their
/// numbers.
pub fn devices_stay_named()
    ensures { DevicesStayNamed }
{}

/// A flat design whose names are among those of a table is named by a larger one in which they keep
/// their numbers, and is whole there if it was.
pub fn flats_stay_named()
    ensures named { FlatsStayNamed }
    ensures whole { FlatsStayWhole }
{}
