//! Places of the walk through a physical netlist.

/// A place of the walk. Things go by their places in the netlist's lists, from 0.
#[derive(Clone, Copy)]
pub enum Spot {
    /// A site instance.
    InstanceAt(u32),
    /// A placement.
    PlacementAt(u32),
    /// A net as such, before its segments.
    NetAt(u32),
    /// A net and one of its segments, by their numbers: those of its sources come before those of
    /// its stubs.
    SegmentAt(u32, u32),
    /// A property.
    PropertyAt(u32),
    /// A site instance and an element of its site, by its number in the site's type.
    ElementAt(u32, u32),
}
