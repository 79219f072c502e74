//! What walks through a physical netlist share: the names that they met, the types of the sites
//! that they pass, the first item of a list that isn't as it should be, and the first place at
//! which a rule is broken.
#![tactic(auto)]

mod marks;
mod sites;

pub use marks::NameMarks;
pub use sites::site_type_at;
