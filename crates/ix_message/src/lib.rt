//! The four messages: device resources, logical netlist, physical netlist and packed design. What
//! they are stands in `specs/`: their structs as tables, and for all of them alike the reading of a
//! file, its first bad index, the order of its names, its layout, and the law that what is encoded
//! reads again as itself.
#![tactic(auto)]

mod laws;
pub mod slots;
mod worked;
