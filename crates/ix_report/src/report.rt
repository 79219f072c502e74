//! What the program has to tell.

use ix_rec::{File, Place, Rule, Word};

/// An answer of the program, with the values that its line shows.
#[derive(Debug, Drop)]
pub enum Report {
    /// `pack` has written its packing.
    Packed {
        /// Cells of the flat design.
        cells: u32,
        /// Clusters.
        clusters: u32,
    },
    /// `place` has written its netlist.
    Placed {
        /// Clusters, as many as sites in use.
        clusters: u32,
        /// The total length of the nets.
        length: u64,
    },
    /// `route` has written its netlist.
    Routed {
        /// Signal nets of the flat design.
        nets: u32,
        /// PIP segments of all nets.
        pips: u64,
        /// The rounds that it took.
        rounds: u32,
    },
    /// `flow` has written its netlist.
    Implemented {
        /// Cells of the flat design.
        cells: u32,
        /// Clusters, as many as sites in use.
        clusters: u32,
        /// Signal nets of the flat design.
        nets: u32,
        /// PIP segments of all nets.
        pips: u64,
        /// The trial that routed, from 1.
        trial: u32,
        /// The rounds that it took.
        rounds: u32,
    },
    /// `check` finds no broken rule.
    Yes {
        /// A LUT is placed, and the file says nothing of its table.
        derived: bool,
    },
    /// `check` finds a broken rule.
    No {
        /// The least rule that is broken.
        rule: Rule,
        /// The first place at which it is.
        place: Place,
    },
    /// `demo` has written its device and its design.
    Demo {
        /// The number that they are made from.
        number: u32,
        /// LUTs of the design.
        luts: u32,
        /// Flip-flops of the design.
        flip_flops: u32,
        /// Ports of the design.
        ports: u32,
    },
    /// The words of the command line are refused.
    Usage,
    /// A file breaks a rule.
    Bad {
        /// The file.
        file: File,
        /// The first rule that it breaks.
        rule: Rule,
        /// The first place at which it breaks it.
        place: Place,
    },
    /// A file that is valid so far has parts that the program can't handle yet.
    NotBuilt(File),
    /// The netlist would have 2^27 words or more.
    TooLong,
    /// More cells of a type than BELs that admit it.
    TooFewBels {
        /// The cell type.
        kind: Word,
        /// How many cells of the type the design has.
        cells: u64,
        /// How many BELs of the device's sites admit it.
        bels: u64,
    },
    /// No site type can take a cell's group, even alone.
    Unpackable {
        /// The first cell of the group.
        cell: Word,
    },
    /// A cell finds no place.
    NoSite {
        /// The cell.
        cell: Word,
    },
    /// No walk leads to a sink.
    Unreachable {
        /// The net.
        net: Word,
        /// The node at which it has to arrive.
        node: Word,
    },
    /// Two nets hold one node.
    Congested {
        /// The node.
        node: Word,
        /// The earlier net.
        a: Word,
        /// The later net.
        b: Word,
        /// The rounds that were made.
        rounds: u32,
        /// The trial, from 1.
        trial: u32,
    },
    /// A file can't be read.
    ReadFault {
        /// The file's name.
        file: Word,
    },
    /// A file can't be written.
    WriteFault {
        /// The file's name.
        file: Word,
    },
    /// Out of memory.
    OutOfMemory,
}
