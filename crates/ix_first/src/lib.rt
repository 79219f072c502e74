//! Tables that keep the first value that is put under a key or a number, and the numbers of places.
#![tactic(auto)]

mod by_id;
mod by_key;
mod number;

pub use by_id::FirstById;
pub use by_key::FirstByKey;
pub use number::number_of;
