//! Tables of keys: each key has one number, its place.
#![tactic(auto)]

mod key;
mod keys;

pub use key::Key;
pub use keys::Keys;
