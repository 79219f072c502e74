//! The slots of the fields of the messages' structs: of a data field its number among the slots of
//! 32 bits, of a pointer field its number in the pointer section; and of each struct how many data
//! words and pointers it is written with. Readers and writers take their slots from here, and a
//! proof ties them to the tables of `specs/`.

/// Slots of `Entry`.
pub mod entry {
    /// The data slot of `key`.
    pub const KEY: u32 = 0;
    /// The data slot of `tag`.
    pub const TAG: u32 = 1;
    /// The data slot of `value`.
    pub const VALUE: u32 = 2;
    /// The words of the data section.
    pub const DATA_WORDS: u32 = 2;
    /// The pointers of the pointer section.
    pub const POINTERS: u32 = 0;
}

/// Slots of `CellInstance`.
pub mod cell_instance {
    /// The data slot of `name`.
    pub const NAME: u32 = 0;
    /// The data slot of `cell`.
    pub const CELL: u32 = 1;
    /// The pointer slot of `propMap`.
    pub const PROP_MAP: u32 = 0;
    /// The words of the data section.
    pub const DATA_WORDS: u32 = 1;
    /// The pointers of the pointer section.
    pub const POINTERS: u32 = 1;
}

/// Slots of `CellDeclaration`.
pub mod cell_declaration {
    /// The data slot of `name`.
    pub const NAME: u32 = 0;
    /// The pointer slot of `ports`.
    pub const PORTS: u32 = 0;
    /// The words of the data section.
    pub const DATA_WORDS: u32 = 1;
    /// The pointers of the pointer section.
    pub const POINTERS: u32 = 1;
}

/// Slots of `PortInstance`.
pub mod port_instance {
    /// The data slot of `port`.
    pub const PORT: u32 = 0;
    /// The data slot of `bus_tag`.
    pub const BUS_TAG: u32 = 1;
    /// The data slot of `idx`.
    pub const IDX: u32 = 2;
    /// The data slot of `owner_tag`.
    pub const OWNER_TAG: u32 = 3;
    /// The data slot of `inst`.
    pub const INST: u32 = 4;
    /// The words of the data section.
    pub const DATA_WORDS: u32 = 3;
    /// The pointers of the pointer section.
    pub const POINTERS: u32 = 0;
}

/// Slots of `Net`.
pub mod net {
    /// The data slot of `name`.
    pub const NAME: u32 = 0;
    /// The pointer slot of `portInsts`.
    pub const PORT_INSTS: u32 = 0;
    /// The words of the data section.
    pub const DATA_WORDS: u32 = 1;
    /// The pointers of the pointer section.
    pub const POINTERS: u32 = 1;
}

/// Slots of `Cell`.
pub mod cell {
    /// The data slot of `index`.
    pub const INDEX: u32 = 0;
    /// The pointer slot of `insts`.
    pub const INSTS: u32 = 0;
    /// The pointer slot of `nets`.
    pub const NETS: u32 = 1;
    /// The words of the data section.
    pub const DATA_WORDS: u32 = 1;
    /// The pointers of the pointer section.
    pub const POINTERS: u32 = 2;
}

/// Slots of `Port`.
pub mod port {
    /// The data slot of `name`.
    pub const NAME: u32 = 0;
    /// The data slot of `dir`.
    pub const DIR: u32 = 1;
    /// The data slot of `kind_tag`.
    pub const KIND_TAG: u32 = 2;
    /// The data slot of `busStart`.
    pub const BUS_START: u32 = 3;
    /// The data slot of `busEnd`.
    pub const BUS_END: u32 = 4;
    /// The pointer slot of `propMap`.
    pub const PROP_MAP: u32 = 0;
    /// The words of the data section.
    pub const DATA_WORDS: u32 = 3;
    /// The pointers of the pointer section.
    pub const POINTERS: u32 = 1;
}

/// Slots of `Netlist`.
pub mod netlist {
    /// The pointer slot of `name`.
    pub const NAME: u32 = 0;
    /// The pointer slot of `propMap`.
    pub const PROP_MAP: u32 = 1;
    /// The pointer slot of `topInst`.
    pub const TOP_INST: u32 = 2;
    /// The pointer slot of `strList`.
    pub const STR_LIST: u32 = 3;
    /// The pointer slot of `cellDecls`.
    pub const CELL_DECLS: u32 = 4;
    /// The pointer slot of `portList`.
    pub const PORT_LIST: u32 = 5;
    /// The pointer slot of `instList`.
    pub const INST_LIST: u32 = 6;
    /// The pointer slot of `cellList`.
    pub const CELL_LIST: u32 = 7;
    /// The words of the data section.
    pub const DATA_WORDS: u32 = 0;
    /// The pointers of the pointer section.
    pub const POINTERS: u32 = 8;
}

/// Slots of `PinMapping`.
pub mod pin_mapping {
    /// The data slot of `cellPin`.
    pub const CELL_PIN: u32 = 0;
    /// The data slot of `bel`.
    pub const BEL: u32 = 1;
    /// The data slot of `belPin`.
    pub const BEL_PIN: u32 = 2;
    /// The words of the data section.
    pub const DATA_WORDS: u32 = 2;
    /// The pointers of the pointer section.
    pub const POINTERS: u32 = 0;
}

/// Slots of `CellPlacement`.
pub mod cell_placement {
    /// The data slot of `cellName`.
    pub const CELL_NAME: u32 = 0;
    /// The data slot of `type`.
    pub const TYPE: u32 = 1;
    /// The data slot of `site`.
    pub const SITE: u32 = 2;
    /// The data slot of `bel`.
    pub const BEL: u32 = 3;
    /// The pointer slot of `pinMap`.
    pub const PIN_MAP: u32 = 0;
    /// The words of the data section.
    pub const DATA_WORDS: u32 = 2;
    /// The pointers of the pointer section.
    pub const POINTERS: u32 = 1;
}

/// Slots of `PhysNet`.
pub mod phys_net {
    /// The data slot of `name`.
    pub const NAME: u32 = 0;
    /// The data slot of `type`.
    pub const TYPE: u32 = 1;
    /// The pointer slot of `sources`.
    pub const SOURCES: u32 = 0;
    /// The pointer slot of `stubs`.
    pub const STUBS: u32 = 1;
    /// The words of the data section.
    pub const DATA_WORDS: u32 = 1;
    /// The pointers of the pointer section.
    pub const POINTERS: u32 = 2;
}

/// Slots of `SiteInstance`.
pub mod site_instance {
    /// The data slot of `site`.
    pub const SITE: u32 = 0;
    /// The data slot of `type`.
    pub const TYPE: u32 = 1;
    /// The words of the data section.
    pub const DATA_WORDS: u32 = 1;
    /// The pointers of the pointer section.
    pub const POINTERS: u32 = 0;
}

/// Slots of `Property`.
pub mod property {
    /// The data slot of `key`.
    pub const KEY: u32 = 0;
    /// The data slot of `value`.
    pub const VALUE: u32 = 1;
    /// The words of the data section.
    pub const DATA_WORDS: u32 = 1;
    /// The pointers of the pointer section.
    pub const POINTERS: u32 = 0;
}

/// Slots of `PhysNetlist`.
pub mod phys_netlist {
    /// The pointer slot of `part`.
    pub const PART: u32 = 0;
    /// The pointer slot of `strList`.
    pub const STR_LIST: u32 = 1;
    /// The pointer slot of `placements`.
    pub const PLACEMENTS: u32 = 2;
    /// The pointer slot of `physNets`.
    pub const PHYS_NETS: u32 = 3;
    /// The pointer slot of `siteInsts`.
    pub const SITE_INSTS: u32 = 4;
    /// The pointer slot of `properties`.
    pub const PROPERTIES: u32 = 5;
    /// The words of the data section.
    pub const DATA_WORDS: u32 = 0;
    /// The pointers of the pointer section.
    pub const POINTERS: u32 = 6;
}

/// Slots of `PackedCell`.
pub mod packed_cell {
    /// The data slot of `cell`.
    pub const CELL: u32 = 0;
    /// The data slot of `bel`.
    pub const BEL: u32 = 1;
    /// The words of the data section.
    pub const DATA_WORDS: u32 = 1;
    /// The pointers of the pointer section.
    pub const POINTERS: u32 = 0;
}

/// Slots of `PackedCluster`.
pub mod packed_cluster {
    /// The data slot of `siteType`.
    pub const SITE_TYPE: u32 = 0;
    /// The pointer slot of `cells`.
    pub const CELLS: u32 = 0;
    /// The words of the data section.
    pub const DATA_WORDS: u32 = 1;
    /// The pointers of the pointer section.
    pub const POINTERS: u32 = 1;
}

/// Slots of `Packed`.
pub mod packed {
    /// The pointer slot of `strList`.
    pub const STR_LIST: u32 = 0;
    /// The pointer slot of `clusters`.
    pub const CLUSTERS: u32 = 1;
    /// The words of the data section.
    pub const DATA_WORDS: u32 = 0;
    /// The pointers of the pointer section.
    pub const POINTERS: u32 = 2;
}

/// Slots of `RouteBranch`.
pub mod route_branch {
    /// The data slot of `kind_tag`.
    pub const KIND_TAG: u32 = 0;
    /// The data slot of `first`.
    pub const FIRST: u32 = 1;
    /// The data slot of `second`.
    pub const SECOND: u32 = 2;
    /// The data slot of `third`.
    pub const THIRD: u32 = 3;
    /// The data slot of `forward`.
    pub const FORWARD: u32 = 4;
    /// The pointer slot of `branches`.
    pub const BRANCHES: u32 = 0;
    /// The words of the data section.
    pub const DATA_WORDS: u32 = 3; // for five fields
    /// The pointers of the pointer section.
    pub const POINTERS: u32 = 1;
}

/// Slots of `PropertyMap`.
pub mod property_map {
    /// The pointer slot of `entries`.
    pub const ENTRIES: u32 = 0;
    /// The words of the data section.
    pub const DATA_WORDS: u32 = 0;
    /// The pointers of the pointer section.
    pub const POINTERS: u32 = 1;
}
