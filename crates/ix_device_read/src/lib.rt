//! The reader of device resources.
#![tactic(auto)]

mod at;
mod cell_map;
mod choices;
mod context;
mod device;
mod intern;
mod inversion;
mod laws;
mod lut;
mod lut_texts;
mod package;
mod package_pin_site;
mod read;
mod site_type;
mod stop;
mod take;
mod tile;
mod tile_type;
mod walk;

pub use laws::{files_read_as_their_segments, finishing_is_reading};
pub use read::read_device;
