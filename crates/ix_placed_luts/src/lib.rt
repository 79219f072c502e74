//! Where LUTs are placed, and their functions.
#![tactic(auto)]

mod function;
mod laws;
mod placed;
mod ties;

pub use function::function_of;
pub use laws::function_is_one;
pub use placed::{PlacedLut, placed_lut};
