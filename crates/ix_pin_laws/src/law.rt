//! Laws on pins and sizes, over the definitions alone.

ghost use Rattle.ix_pin_laws.specs.Laws.{DesignsAreSmall, PinsAreApart, PortCellsAreCounted};

/// The cell of a bit of a top's port is the number of bits with a type before it.
pub fn port_cells_are_counted()
    ensures law { PortCellsAreCounted }
{}

/// Two pins that are on nets and have one cell and one written name are one pin.
pub fn pins_are_apart()
    ensures law { PinsAreApart }
{}

/// A design that keeps N10 has no more than 2 ^ 22 port bits, leaves and signal nets together.
pub fn designs_are_small()
    ensures law { DesignsAreSmall }
{}
