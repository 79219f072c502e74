//! The table of logical netlists.

ghost use Rattle.std.specs.Prelude.{◌≡◌, length, true};
ghost use Rattle.ix_message.specs.Netlist.{netlist};
ghost use Rattle.ix_schema.specs.Forms.{is_form};
ghost use Rattle.ix_schema.specs.Named.{are_named};
ghost use Rattle.ix_logic_read.specs.Structs.{netlist_structs};

use ix_schema::Behind::{Boxed, Numbers, Struct, Structs, Text, Unread};
use ix_schema::{StructForm, Table};

/// The structs of logical netlists, the root last.
const NETLIST: [StructForm; 8] = [
    StructForm {
        name: "Entry",
        fields: &["key", "tag", "value"],
        pointers: &[],
    },
    StructForm {
        name: "CellInstance",
        fields: &["name", "cell", "propMap"],
        pointers: &[Boxed(0)],
    },
    StructForm {
        name: "CellDeclaration",
        fields: &["name", "ports"],
        pointers: &[Numbers],
    },
    StructForm {
        name: "PortInstance",
        fields: &["port", "bus_tag", "idx", "owner_tag", "inst"],
        pointers: &[],
    },
    StructForm {
        name: "Net",
        fields: &["name", "portInsts"],
        pointers: &[Structs(3)],
    },
    StructForm {
        name: "Cell",
        fields: &["index", "insts", "nets"],
        pointers: &[Numbers, Structs(4)],
    },
    StructForm {
        name: "Port",
        fields: &["name", "dir", "kind_tag", "busStart", "busEnd", "propMap"],
        pointers: &[Boxed(0)],
    },
    StructForm {
        name: "Netlist",
        fields: &[
            "name",
            "propMap",
            "topInst",
            "strList",
            "cellDecls",
            "portList",
            "instList",
            "cellList",
        ],
        pointers: &[
            Text,
            Boxed(0),
            Struct(1),
            Unread,
            Structs(2),
            Structs(6),
            Structs(1),
            Structs(5),
        ],
    },
];

/// The table of logical netlists. The root has number 7.
pub fn netlist_table() -> Table
    ensures structs { length result.structs.now ≡ 8 }
    ensures forms { is_form result.structs.now 7 netlist ≡ true }
    ensures names { are_named result.structs.now netlist_structs ≡ true }
{
    Table { structs: &NETLIST }
}
