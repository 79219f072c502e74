//! The table of physical netlists.

ghost use Rattle.std.specs.Prelude.{◌≡◌, length, true};
ghost use Rattle.ix_message.specs.Phys.{phys_netlist};
ghost use Rattle.ix_schema.specs.Forms.{is_form};
ghost use Rattle.ix_schema.specs.Named.{are_named};
ghost use Rattle.ix_schema.specs.Structs.{phys_structs};

use crate::form::Behind::{Branches, Structs, Text, Unread};
use crate::form::StructForm;
use crate::table::Table;

/// The structs of physical netlists, the root last.
const PHYS: [StructForm; 6] = [
    StructForm {
        name: "PinMapping",
        fields: &["cellPin", "bel", "belPin"],
        pointers: &[],
    },
    StructForm {
        name: "CellPlacement",
        fields: &["cellName", "type", "site", "bel", "pinMap"],
        pointers: &[Structs(0)],
    },
    StructForm {
        name: "PhysNet",
        fields: &["name", "type", "sources", "stubs"],
        pointers: &[Branches, Branches],
    },
    StructForm {
        name: "SiteInstance",
        fields: &["site", "type"],
        pointers: &[],
    },
    StructForm {
        name: "Property",
        fields: &["key", "value"],
        pointers: &[],
    },
    StructForm {
        name: "PhysNetlist",
        fields: &[
            "part",
            "strList",
            "placements",
            "physNets",
            "siteInsts",
            "properties",
        ],
        pointers: &[Text, Unread, Structs(1), Structs(2), Structs(3), Structs(4)],
    },
];

/// The table of physical netlists. The root has number 5.
pub fn phys_table() -> Table
    ensures structs { length result.structs.now ≡ 6 }
    ensures forms { is_form result.structs.now 5 phys_netlist ≡ true }
    ensures names { are_named result.structs.now phys_structs ≡ true }
{
    Table { structs: &PHYS }
}
