//! The names of flat cells and nets.
#![tactic(auto)]

mod signals;
mod texts;

pub use signals::signals_of;
pub use texts::{net_text, port_names, port_text};
