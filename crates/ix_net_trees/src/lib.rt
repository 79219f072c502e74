//! The rules on the trees of nets: that segments are joined (L4), that trees begin at proper roots
//! (L5), and that they don't meet (L6).
#![tactic(auto)]

mod apart;
mod branches;
mod constants;
mod joined;
mod known;
mod mapped;
mod marks;
mod pins;
mod rooted;
mod wiring;

pub use apart::first_rejoining;
pub use joined::first_unjoined;
pub use rooted::first_unrooted;
