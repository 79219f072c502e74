//! Which sites of a physical netlist are in use, and which BELs have cells; and the rule that each
//! cell, BEL and site is used once (L2).
#![tactic(auto)]

mod fault;
mod instances;
mod placements;
mod uses;

pub use fault::UsesFault;
pub use uses::Uses;
