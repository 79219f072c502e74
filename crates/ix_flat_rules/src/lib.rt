//! The rules of a netlist that are asked once its instances, nets and names are listed: N8, N3, N4,
//! N6 and N7, in this order.
#![tactic(auto)]

mod drivers;
mod inout;
mod inputs;
mod luts;
mod nets;
mod tables;

pub use drivers::{ask_driver, ask_one_driver};
pub use inout::ask_inout;
pub use inputs::ask_inputs;
pub use tables::ask_tables;
