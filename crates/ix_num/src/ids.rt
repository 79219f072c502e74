//! Numbers that stand for the things of a device and of a design, each with a type of its own so
//! that none is taken for another. In contracts an id is its number.

ghost use Rattle.std.specs.Prelude.{◌≡◌};

use std::marker::Model;

/// A tile of the device: its place in the device's list of tiles.
#[derive(Clone, Copy, Debug, PartialEq, Eq)]
pub struct TileId(u32);

impl Model for TileId {
    ghost use Rattle.std.specs.Prelude.{ℕ};

    ghost Value = { ℕ };

    ghost view = { λ id. id.0 };

    ghost inverse = { λ n. record { 0 = n } };
}

impl TileId {
    /// The id with this number.
    pub fn new(n: u32) -> Self
        ensures { result ≡ n }
    {
        TileId(n)
    }

    /// The id's number.
    pub fn get(self) -> u32
        ensures { result ≡ self }
    {
        self.0
    }
}

/// A site type: its place in the device's list of site types.
#[derive(Clone, Copy, Debug, PartialEq, Eq)]
pub struct SiteTypeId(u32);

impl Model for SiteTypeId {
    ghost use Rattle.std.specs.Prelude.{ℕ};

    ghost Value = { ℕ };

    ghost view = { λ id. id.0 };

    ghost inverse = { λ n. record { 0 = n } };
}

impl SiteTypeId {
    /// The id with this number.
    pub fn new(n: u32) -> Self
        ensures { result ≡ n }
    {
        SiteTypeId(n)
    }

    /// The id's number.
    pub fn get(self) -> u32
        ensures { result ≡ self }
    {
        self.0
    }
}

/// A site. Sites are numbered over the whole device: by tile, then by place in the tile.
#[derive(Clone, Copy, Debug, PartialEq, Eq)]
pub struct SiteId(u32);

impl Model for SiteId {
    ghost use Rattle.std.specs.Prelude.{ℕ};

    ghost Value = { ℕ };

    ghost view = { λ id. id.0 };

    ghost inverse = { λ n. record { 0 = n } };
}

impl SiteId {
    /// The id with this number.
    pub fn new(n: u32) -> Self
        ensures { result ≡ n }
    {
        SiteId(n)
    }

    /// The id's number.
    pub fn get(self) -> u32
        ensures { result ≡ self }
    {
        self.0
    }
}

/// A BEL of a site type, numbered within that site type in file order.
#[derive(Clone, Copy, Debug, PartialEq, Eq)]
pub struct BelId(u32);

impl Model for BelId {
    ghost use Rattle.std.specs.Prelude.{ℕ};

    ghost Value = { ℕ };

    ghost view = { λ id. id.0 };

    ghost inverse = { λ n. record { 0 = n } };
}

impl BelId {
    /// The id with this number.
    pub fn new(n: u32) -> Self
        ensures { result ≡ n }
    {
        BelId(n)
    }

    /// The id's number.
    pub fn get(self) -> u32
        ensures { result ≡ self }
    {
        self.0
    }
}

/// A BEL pin of a site type, numbered within that site type in file order.
#[derive(Clone, Copy, Debug, PartialEq, Eq)]
pub struct BelPinId(u32);

impl Model for BelPinId {
    ghost use Rattle.std.specs.Prelude.{ℕ};

    ghost Value = { ℕ };

    ghost view = { λ id. id.0 };

    ghost inverse = { λ n. record { 0 = n } };
}

impl BelPinId {
    /// The id with this number.
    pub fn new(n: u32) -> Self
        ensures { result ≡ n }
    {
        BelPinId(n)
    }

    /// The id's number.
    pub fn get(self) -> u32
        ensures { result ≡ self }
    {
        self.0
    }
}

/// A site pin of a site type, numbered within that site type in file order.
#[derive(Clone, Copy, Debug, PartialEq, Eq)]
pub struct SitePinId(u32);

impl Model for SitePinId {
    ghost use Rattle.std.specs.Prelude.{ℕ};

    ghost Value = { ℕ };

    ghost view = { λ id. id.0 };

    ghost inverse = { λ n. record { 0 = n } };
}

impl SitePinId {
    /// The id with this number.
    pub fn new(n: u32) -> Self
        ensures { result ≡ n }
    {
        SitePinId(n)
    }

    /// The id's number.
    pub fn get(self) -> u32
        ensures { result ≡ self }
    {
        self.0
    }
}

/// A site wire of a site type, numbered within that site type in file order.
#[derive(Clone, Copy, Debug, PartialEq, Eq)]
pub struct SiteWireId(u32);

impl Model for SiteWireId {
    ghost use Rattle.std.specs.Prelude.{ℕ};

    ghost Value = { ℕ };

    ghost view = { λ id. id.0 };

    ghost inverse = { λ n. record { 0 = n } };
}

impl SiteWireId {
    /// The id with this number.
    pub fn new(n: u32) -> Self
        ensures { result ≡ n }
    {
        SiteWireId(n)
    }

    /// The id's number.
    pub fn get(self) -> u32
        ensures { result ≡ self }
    {
        self.0
    }
}

/// A node of the routing graph, numbered over the whole device: the nodes that the device
/// lists first, then each tile wire that no listed node names, by tile and wire.
#[derive(Clone, Copy, Debug, PartialEq, Eq)]
pub struct NodeId(u32);

impl Model for NodeId {
    ghost use Rattle.std.specs.Prelude.{ℕ};

    ghost Value = { ℕ };

    ghost view = { λ id. id.0 };

    ghost inverse = { λ n. record { 0 = n } };
}

impl NodeId {
    /// The id with this number.
    pub fn new(n: u32) -> Self
        ensures { result ≡ n }
    {
        NodeId(n)
    }

    /// The id's number.
    pub fn get(self) -> u32
        ensures { result ≡ self }
    {
        self.0
    }
}

/// A directed PIP, numbered over the whole device: the `p`-th conventional PIP, by tile and by
/// place in the tile, is `2p` forwards and `2p + 1` backwards.
#[derive(Clone, Copy, Debug, PartialEq, Eq)]
pub struct PipId(u32);

impl Model for PipId {
    ghost use Rattle.std.specs.Prelude.{ℕ};

    ghost Value = { ℕ };

    ghost view = { λ id. id.0 };

    ghost inverse = { λ n. record { 0 = n } };
}

impl PipId {
    /// The id with this number.
    pub fn new(n: u32) -> Self
        ensures { result ≡ n }
    {
        PipId(n)
    }

    /// The id's number.
    pub fn get(self) -> u32
        ensures { result ≡ self }
    {
        self.0
    }
}

/// A signal net of a design, in preorder of the hierarchy.
#[derive(Clone, Copy, Debug, PartialEq, Eq)]
pub struct NetId(u32);

impl Model for NetId {
    ghost use Rattle.std.specs.Prelude.{ℕ};

    ghost Value = { ℕ };

    ghost view = { λ id. id.0 };

    ghost inverse = { λ n. record { 0 = n } };
}

impl NetId {
    /// The id with this number.
    pub fn new(n: u32) -> Self
        ensures { result ≡ n }
    {
        NetId(n)
    }

    /// The id's number.
    pub fn get(self) -> u32
        ensures { result ≡ self }
    {
        self.0
    }
}

/// A cell of a flat design: port cells first, then leaves in preorder.
#[derive(Clone, Copy, Debug, PartialEq, Eq, PartialOrd, Ord, Hash)]
pub struct CellId(u32);

impl Model for CellId {
    ghost use Rattle.std.specs.Prelude.{ℕ};

    ghost Value = { ℕ };

    ghost view = { λ id. id.0 };

    ghost inverse = { λ n. record { 0 = n } };
}

impl CellId {
    /// The id with this number.
    pub fn new(n: u32) -> Self
        ensures { result ≡ n }
    {
        CellId(n)
    }

    /// The id's number.
    pub fn get(self) -> u32
        ensures { result ≡ self }
    {
        self.0
    }
}

/// A name of the run's table of names.
#[derive(Clone, Copy, Debug, PartialEq, Eq, PartialOrd, Ord, Hash)]
pub struct NameId(u32);

impl Model for NameId {
    ghost use Rattle.std.specs.Prelude.{ℕ};

    ghost Value = { ℕ };

    ghost view = { λ id. id.0 };

    ghost inverse = { λ n. record { 0 = n } };
}

impl NameId {
    /// The id with this number.
    pub fn new(n: u32) -> Self
        ensures { result ≡ n }
    {
        NameId(n)
    }

    /// The id's number.
    pub fn get(self) -> u32
        ensures { result ≡ self }
    {
        self.0
    }
}
