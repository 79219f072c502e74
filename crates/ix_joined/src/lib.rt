//! What is known of the instances, the nets and the pins of a design, by number.
#![tactic(auto)]

mod joined;
mod pin;
mod state;
mod top_bit;

pub use joined::Joined;
pub use pin::{LeafPin, Role, role_of, role_of_bit};
pub use state::NetState;
pub use top_bit::TopBit;
