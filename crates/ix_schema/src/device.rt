//! The table of device resources.

ghost use Rattle.std.specs.Prelude.{◌≡◌, length, true};
ghost use Rattle.ix_message.specs.Device.{device};
ghost use Rattle.ix_schema.specs.Forms.{is_form};
ghost use Rattle.ix_schema.specs.Named.{are_named};
ghost use Rattle.ix_schema.specs.Structs.{device_structs};

use crate::form::Behind::{Numbers, Struct, StructOrNone, Structs, Text, Texts, Unread};
use crate::form::StructForm;
use crate::table::Table;

/// The structs of device resources, the root last.
const DEVICE: [StructForm; 29] = [
    StructForm {
        name: "BELPin",
        fields: &["name", "dir", "bel"],
        pointers: &[],
    },
    StructForm {
        name: "SitePin",
        fields: &["name", "dir", "belpin"],
        pointers: &[],
    },
    StructForm {
        name: "BEL",
        fields: &[
            "name",
            "category",
            "inversion_tag",
            "nonInvertingPin",
            "invertingPin",
        ],
        pointers: &[],
    },
    StructForm {
        name: "SitePIP",
        fields: &["inpin", "outpin"],
        pointers: &[],
    },
    StructForm {
        name: "SiteWire",
        fields: &["name", "pins"],
        pointers: &[Numbers],
    },
    StructForm {
        name: "SiteType",
        fields: &["name", "belPins", "pins", "bels", "sitePIPs", "siteWires"],
        pointers: &[Structs(0), Structs(1), Structs(2), Structs(3), Structs(4)],
    },
    StructForm {
        name: "SiteTypeInTileType",
        fields: &["primaryType", "primaryPinsToTileWires"],
        pointers: &[Numbers],
    },
    StructForm {
        name: "PIP",
        fields: &["wire0", "wire1", "directional", "kind_tag"],
        pointers: &[],
    },
    StructForm {
        name: "WireConstantSources",
        fields: &["constant", "wires"],
        pointers: &[Numbers],
    },
    StructForm {
        name: "TileType",
        fields: &["name", "siteTypes", "wires", "pips", "constants"],
        pointers: &[Structs(6), Numbers, Structs(7), Structs(8)],
    },
    StructForm {
        name: "Site",
        fields: &["name", "type"],
        pointers: &[],
    },
    StructForm {
        name: "Tile",
        fields: &["name", "type", "row", "col", "sites"],
        pointers: &[Structs(10)],
    },
    StructForm {
        name: "Wire",
        fields: &["tile", "wire"],
        pointers: &[],
    },
    StructForm {
        name: "Node",
        fields: &["wires"],
        pointers: &[Numbers],
    },
    StructForm {
        name: "SiteTypeBelEntry",
        fields: &["siteType", "bels"],
        pointers: &[Numbers],
    },
    StructForm {
        name: "CellBelPinEntry",
        fields: &["cellPin", "belPin"],
        pointers: &[],
    },
    StructForm {
        name: "CommonCellBelPinMaps",
        fields: &["siteTypes", "pins"],
        pointers: &[Structs(14), Structs(15)],
    },
    StructForm {
        name: "CellBelMapping",
        fields: &["cell", "commonPins"],
        pointers: &[Structs(16)],
    },
    StructForm {
        name: "PackagePin",
        fields: &["packagePin", "site_tag", "site"],
        pointers: &[],
    },
    StructForm {
        name: "Package",
        fields: &["name", "packagePins"],
        pointers: &[Structs(18)],
    },
    StructForm {
        name: "SiteConstantSource",
        fields: &["siteType", "bel", "belPin", "constant"],
        pointers: &[],
    },
    StructForm {
        name: "NodeConstantSource",
        fields: &["tile", "wire", "constant"],
        pointers: &[],
    },
    StructForm {
        name: "Constants",
        fields: &[
            "gndCellType",
            "gndCellPin",
            "vccCellType",
            "vccCellPin",
            "siteSources",
            "nodeSources",
        ],
        pointers: &[Structs(20), Structs(21)],
    },
    StructForm {
        name: "LutCell",
        fields: &["equation_tag", "cell", "inputPins", "initParam"],
        pointers: &[Text, Texts, Text],
    },
    StructForm {
        name: "LutBel",
        fields: &["lowBit", "highBit", "name", "inputPins", "outputPin"],
        pointers: &[Text, Texts, Text],
    },
    StructForm {
        name: "LutElement",
        fields: &["width", "bels"],
        pointers: &[Structs(24)],
    },
    StructForm {
        name: "SiteTypeLutElements",
        fields: &["site", "luts"],
        pointers: &[Text, Structs(25)],
    },
    StructForm {
        name: "LutDefinitions",
        fields: &["lutCells", "lutElements"],
        pointers: &[Structs(23), Structs(26)],
    },
    StructForm {
        name: "Device",
        fields: &[
            "name",
            "strList",
            "siteTypeList",
            "tileTypeList",
            "tileList",
            "wires",
            "nodes",
            "primLibs",
            "exceptionMap",
            "cellBelMap",
            "packages",
            "constants",
            "lutDefinitions",
        ],
        pointers: &[
            Text,
            Unread,
            Structs(5),
            Structs(9),
            Structs(11),
            Structs(12),
            Structs(13),
            Unread,
            Unread,
            Structs(17),
            Structs(19),
            StructOrNone(22),
            Struct(27),
        ],
    },
];

/// The table of device resources. The root has number 28.
pub fn device_table() -> Table
    ensures structs { length result.structs.now ≡ 29 }
    ensures forms { is_form result.structs.now 28 device ≡ true }
    ensures names { are_named result.structs.now device_structs ≡ true }
{
    Table { structs: &DEVICE }
}
