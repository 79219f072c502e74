//! The kinds of structs and the fields that rules ask.

ghost use Rattle.std.specs.Prelude.{◌≡◌, ◌<◌, codes};
ghost use Rattle.ix_device_rules.specs.Kinds.{kinds, kind_name, field_name, number_of_kind};

/// How many kinds of structs the rules walk over.
pub const KINDS: usize = 15;

/// A kind of struct of a device.
#[derive(Clone, Copy)]
pub enum Kind {
    /// A pin of a BEL.
    BelPin,
    /// A pin of a site.
    SitePin,
    /// A BEL.
    Bel,
    /// A site PIP.
    SitePip,
    /// A wire inside a site.
    SiteWire,
    /// A site type.
    SiteType,
    /// A site type in a tile type.
    SiteTypeInTileType,
    /// A tile type.
    TileType,
    /// A site.
    Site,
    /// A tile.
    Tile,
    /// An entry of the list of wires.
    Wire,
    /// A node.
    Node,
    /// The BELs of a cell type.
    CellBelMapping,
    /// A BEL of a LUT element.
    LutBel,
    /// A LUT element.
    LutElement,
}

/// A field that a rule asks.
#[derive(Clone, Copy)]
pub enum Field {
    /// A thing's own name.
    Name,
    /// A cell type.
    Cell,
    /// Wires.
    Wires,
    /// A tile's name.
    Tile,
    /// A wire's name.
    Wire,
    /// Pins.
    Pins,
    /// A BEL's name.
    Bel,
    /// The pin at which a signal leaves.
    OutPin,
    /// How many bits there are.
    Width,
    /// The last bit.
    HighBit,
    /// Inputs.
    InputPins,
    /// An output.
    OutputPin,
    /// The tile wires of a site's pins.
    PrimaryPinsToTileWires,
    /// A type.
    Type,
    /// A row.
    Row,
    /// A column.
    Col,
}

impl Kind {
    /// Its place among the kinds.
    pub fn place(self) -> usize
        ensures exact { result ≡ number_of_kind kinds (kind_name self) }
        ensures within { result < KINDS }
    {
        match self {
            Kind::BelPin => 0,
            Kind::SitePin => 1,
            Kind::Bel => 2,
            Kind::SitePip => 3,
            Kind::SiteWire => 4,
            Kind::SiteType => 5,
            Kind::SiteTypeInTileType => 6,
            Kind::TileType => 7,
            Kind::Site => 8,
            Kind::Tile => 9,
            Kind::Wire => 10,
            Kind::Node => 11,
            Kind::CellBelMapping => 12,
            Kind::LutBel => 13,
            Kind::LutElement => 14,
        }
    }

    /// Its name in the schema.
    pub fn name(self) -> &'static str
        ensures { result.now ≡ codes (kind_name self) }
    {
        match self {
            Kind::BelPin => "BELPin",
            Kind::SitePin => "SitePin",
            Kind::Bel => "BEL",
            Kind::SitePip => "SitePIP",
            Kind::SiteWire => "SiteWire",
            Kind::SiteType => "SiteType",
            Kind::SiteTypeInTileType => "SiteTypeInTileType",
            Kind::TileType => "TileType",
            Kind::Site => "Site",
            Kind::Tile => "Tile",
            Kind::Wire => "Wire",
            Kind::Node => "Node",
            Kind::CellBelMapping => "CellBelMapping",
            Kind::LutBel => "LutBel",
            Kind::LutElement => "LutElement",
        }
    }
}

impl Field {
    /// Its name in the schema.
    pub fn name(self) -> &'static str
        ensures { result.now ≡ codes (field_name self) }
    {
        match self {
            Field::Name => "name",
            Field::Cell => "cell",
            Field::Wires => "wires",
            Field::Tile => "tile",
            Field::Wire => "wire",
            Field::Pins => "pins",
            Field::Bel => "bel",
            Field::OutPin => "outpin",
            Field::Width => "width",
            Field::HighBit => "highBit",
            Field::InputPins => "inputPins",
            Field::OutputPin => "outputPin",
            Field::PrimaryPinsToTileWires => "primaryPinsToTileWires",
            Field::Type => "type",
            Field::Row => "row",
            Field::Col => "col",
        }
    }
}
