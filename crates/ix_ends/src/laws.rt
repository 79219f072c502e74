//! Laws on the ends of segments, over the definitions alone.

ghost use Rattle.ix_ends.specs.Laws.{EndsAreThere, GraphHasConstants, GraphHasNodes};

/// The ends of a segment are resources of the device.
pub fn ends_are_there()
    ensures law { EndsAreThere }
{}

/// The graph of a device has the constants that its nodes carry.
pub fn graph_has_constants()
    ensures law { GraphHasConstants }
{}

/// The graph of a device has as many nodes as the device.
pub fn graph_has_nodes()
    ensures law { GraphHasNodes }
{}
