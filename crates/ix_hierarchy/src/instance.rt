//! An instance of a design.

/// An instance of a design, among all in preorder; the top is number 0.
#[derive(Clone, Copy)]
pub struct Instance {
    /// Its number in the netlist's list; 0 at the top, which has none.
    pub number: u32,
    /// Its declaration.
    pub declaration: u32,
    /// The instance that it is in, and its place in that one's cell; 0 at the top.
    pub parent: u32,
    pub place: u32,
    /// The number of the first occurrence of a net in it or behind it.
    pub first_net: u32,
}
