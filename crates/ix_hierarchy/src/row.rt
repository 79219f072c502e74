//! Port bits that the nets of a cell name.

/// A port bit that a net of a cell names. Rows are in order by instance, port, index and net.
#[derive(Clone, Copy, PartialEq, Eq, PartialOrd, Ord)]
pub struct Row {
    /// The instance whose bit it is, by its number in the netlist's list; 0 at a bit of the cell
    /// itself.
    pub instance: u32,
    /// The port, by its number in the netlist's list.
    pub port: u32,
    /// The bit's index.
    pub index: u32,
    /// The net's place in the cell.
    pub net: u32,
}
