//! What is told of a netlist.

use ix_rec::{Place, Rule};

/// What is told of a physical netlist that is checked against a flat design.
#[derive(Drop)]
pub enum Verdict {
    /// It breaks no rule of its level, and the design that it realizes is the flat one.
    Yes {
        /// Whether its tables were derived: it has a LUT, and had no table.
        derived: bool,
    },
    /// The least rule that it breaks, and its first place.
    No {
        /// L1 to L10 or E1 to E3.
        rule: Rule,
        /// The place.
        place: Place,
    },
}
