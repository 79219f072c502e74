//! The shape of a LUT element, and what holds its lines.

/// A LUT BEL of an element.
#[derive(Clone, Copy)]
pub struct BelShape {
    /// The bit of the element's table that the BEL reads where all its inputs are 0.
    pub low: u32,
    /// The number of its inputs, at most 6.
    pub inputs: u32,
    /// The line of each of its inputs; past them no matter.
    pub lines: [u32; 6],
}

/// A LUT element as its plan needs it: its lines are the site wires of its BELs' inputs.
#[derive(Clone, Copy)]
pub struct ElementShape {
    /// The number of lines, at most 12.
    pub lines: u32,
    /// The number of BELs, at most 8.
    pub bel_count: u32,
    /// The BELs in order; past their number no matter.
    pub bels: [BelShape; 8],
}

/// What holds a line.
#[derive(Clone, Copy)]
pub enum Tie {
    /// No constant.
    Free,
    /// Logic 1.
    Vcc,
    /// Logic 0.
    Gnd,
}
