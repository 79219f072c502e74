//! LUT elements: which bits of a shared table make each LUT of an element compute its own function.
#![tactic(auto)]

mod agreeing;
mod assign;
mod cells;
mod forcing;
mod function;
mod init;
mod items;
mod lay;
mod masks;
mod plan;
mod shape;
mod table;
mod uses;

pub use function::function_at;
pub use init::{InitValue, read_init};
pub use plan::{ElementPlan, element};
pub use shape::{BelShape, ElementShape, Tie};
pub use table::{Table, permute};
pub use uses::LutUse;
