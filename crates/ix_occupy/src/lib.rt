//! How many nets hold each node of a graph while they negotiate for it, and at how many ends of
//! rounds it was shared.
//!
//! The negotiation is that of PathFinder (L. McMurchie, C. Ebeling, 1995): nets share nodes at
//! first, and a node that stays shared grows dearer until all but one leave it.
#![tactic(auto)]

mod lawful;
mod laws;
mod loads;
mod occupancy;
mod steps;

pub use lawful::is_lawful;
pub use laws::{costs_are_in_range, holders_differ};
pub use occupancy::Occupancy;
pub use steps::{Step, replay};
