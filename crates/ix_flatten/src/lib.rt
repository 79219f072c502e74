//! The flat design of a logical netlist on a device, and the rules N1 to N10 that a netlist can
//! break.
//!
//! Nothing recurses. Rules over declarations are asked first, on the record alone, so a design that
//! would be too large is refused before any of it is listed. Then instances, the occurrences of
//! nets and the flat names are listed, the other rules are asked of the lists, and the lists become
//! the flat design.
#![tactic(auto)]

mod building;
mod flat;
mod judging;
mod listing;

pub use flat::flatten;
pub use ix_asked::DesignFault;
