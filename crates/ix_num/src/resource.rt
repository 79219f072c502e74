//! Constants, nets and resources.

use crate::ids::{NetId, NodeId, SiteId, SiteWireId};

/// A constant that a device can supply.
#[derive(Clone, Copy, Debug, PartialEq, Eq)]
pub enum Constant {
    /// Logic 0.
    Gnd,
    /// Logic 1.
    Vcc,
}

/// A net of a flat design: one of the two constants, or a signal.
#[derive(Clone, Copy, Debug, PartialEq, Eq)]
pub enum NetRef {
    /// The net of logic 0.
    Gnd,
    /// The net of logic 1.
    Vcc,
    /// A signal net.
    Signal(NetId),
}

/// What a net can hold, and only one net at a time.
#[derive(Clone, Copy, Debug, PartialEq, Eq)]
pub enum Res {
    /// A node of the routing graph.
    Node(NodeId),
    /// A site wire of a site.
    Wire(SiteId, SiteWireId),
}
