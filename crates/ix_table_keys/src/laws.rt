//! A law on the tables of LUT elements, over the definitions alone.

ghost use Rattle.ix_table_keys.specs.Laws.{TableIsOne};

/// An element has one table at most, in a netlist that keeps L1.
pub fn table_is_one()
    ensures law { TableIsOne }
{}
