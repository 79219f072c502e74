//! The vocabulary at the bottom: ids, constants, resources, and the faults that every layer names.
#![tactic(auto)]

mod fault;
mod ids;
mod resource;

pub use fault::{FrameFault, FrameRule, Memory};
pub use ids::{
    BelId, BelPinId, CellId, NameId, NetId, NodeId, PipId, SiteId, SitePinId, SiteTypeId,
    SiteWireId, TileId,
};
pub use resource::{Constant, NetRef, Res};
