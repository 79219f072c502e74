//! What a hierarchical design is: instances, nets through the hierarchy, its flat design, and the
//! rules N1 to N10 that it can break. Here are the definitions, for the contracts of all crates
//! that flatten a design in steps, with the small items that these crates hand to one another.
#![tactic(auto)]

mod adding;
mod instance;
mod kind;
mod ports;
mod row;

pub use adding::{MOST_NAMES, add_name};
pub use instance::Instance;
pub use kind::Kind;
pub use ports::{declaration_at, index_of, width};
pub use row::Row;
