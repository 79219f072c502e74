//! Laws on the numbers of LUT elements, over the definitions alone.

ghost use Rattle.ix_element_numbers.specs.Laws.{ElementIsOne, NumberIsOne, InstanceIsOne};

/// A number is of one element.
pub fn element_is_one()
    ensures law { ElementIsOne }
{}

/// An element has one number at most, in a netlist that keeps L2.
pub fn number_is_one()
    ensures law { NumberIsOne }
{}

/// A site has one instance at most, in a netlist that keeps L2.
pub fn instance_is_one()
    ensures law { InstanceIsOne }
{}
