//! Laws over the definitions, each the contract of a function with nothing to do.

ghost use Rattle.std.specs.Prelude.{◌≡◌};
ghost use Rattle.ix_schema.specs.Splitting.{ReadingsSplit};

/// A reading is its first pass, and what the structs say where that finds no fault.
pub fn readings_split()
    ensures { ReadingsSplit }
{}
