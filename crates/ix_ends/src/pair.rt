//! The two ends of a segment, by number.

/// The numbers of a segment's ends.
#[derive(Clone, Copy)]
pub struct Pair {
    /// The end at which the segment begins.
    pub from: u32,
    /// The end to which it goes.
    pub to: u32,
}
