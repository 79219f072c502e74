//! What is read of a design and of a device is such as flattening asks, and names stay names.
#![tactic(auto)]

mod laws;

pub use laws::{
    devices_stay_named, flats_stay_named, names_are_no_fewer, read_devices_fit, read_netlists_fit,
};
