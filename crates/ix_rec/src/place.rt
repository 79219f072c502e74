//! The rules that a file can break, and where.

use crate::text::Word;

/// A rule of the program. The letters: F frames, I indexes, M devices, N designs, P package pins
/// and packed files, L legality of a physical netlist, E agreement of a physical netlist with its
/// design.
#[derive(Clone, Copy, Debug, PartialEq, Eq)]
pub enum Rule {
    /// Fewer than 4 bytes, a segment table that is cut, or a length that isn't the table's.
    F1,
    /// More than 512 segments.
    F2,
    /// A pointer, pad or object outside its segment, or a segment that isn't there.
    F3,
    /// A pointer of another kind or element size than its field has, or a malformed pad.
    F4,
    /// A capability, or another pointer of kind 3.
    F5,
    /// A text without a final NUL, or not UTF-8 before it.
    F6,
    /// The objects read cost more than twice the message's words plus 64.
    F7,
    /// A composite list whose tag isn't of struct form, or whose elements pass its words.
    F8,
    /// A file longer than 2^30 bytes.
    F9,
    /// An index, enumerant or tag out of its list, or a port, instance or bus index that isn't
    /// there.
    I1,
    /// Two things of a device of one name.
    M1,
    /// A wire entry that names no tile wire, or a tile wire in two nodes.
    M2,
    /// A BEL pin that is twice in site wires.
    M3,
    /// A BEL pin whose BEL isn't there, or a site PIP between two BELs.
    M4,
    /// A LUT element or LUT BEL out of its bounds.
    M5,
    /// A site's pins whose tile wires are missing.
    M6,
    /// A row, a column, or a count of tile wires or PIPs past its limit.
    M7,
    /// A cell that contains itself, or a declaration with two cells.
    N1,
    /// A port bit on two nets.
    N2,
    /// A net with two drivers.
    N3,
    /// A net with sinks and no driver.
    N4,
    /// Two cells, or two signal nets, of one flat name.
    N5,
    /// A LUT cell without a readable INIT.
    N6,
    /// An input of a LUT cell on no net.
    N7,
    /// An inout pin on a net.
    N8,
    /// A leaf of a type that the device doesn't have.
    N9,
    /// Too many instances, nets and port bits.
    N10,
    /// A packed cell that is missing, unknown or repeated.
    P1,
    /// A cluster that can't be as the packed file says.
    P2,
    /// More clusters of a type than sites, or two on one site.
    P3,
    /// A fixed port's package pin isn't there.
    P4,
    /// Two port bits on one package pin.
    P5,
    /// A name that isn't there, or a segment without ends.
    L1,
    /// A cell, BEL or site that is used twice, or a BEL that doesn't admit its cell.
    L2,
    /// A pin map that isn't the device's.
    L3,
    /// A segment that doesn't begin where its parent ends.
    L4,
    /// A root that isn't a proper source.
    L5,
    /// A resource entered twice in a net.
    L6,
    /// A resource of two nets.
    L7,
    /// A segment of a site without an instance.
    L8,
    /// A LUT element without a fitting table.
    L9,
    /// A stub.
    L10,
    /// Cells or their types or fixed sites differ from the design's.
    E1,
    /// Pins and their nets differ from the design's.
    E2,
    /// Truth tables differ from the design's.
    E3,
}

/// A file that the program reads and judges.
#[derive(Clone, Copy, Debug, PartialEq, Eq)]
pub enum File {
    /// The device resources.
    Device,
    /// The logical netlist.
    Design,
    /// The packed design.
    Packed,
    /// The physical netlist.
    Phys,
}

/// Where a rule is broken.
#[derive(Debug, Drop)]
pub enum Place {
    /// The file as a whole.
    File,
    /// A word of a frame: that of the pointer at which the rule breaks.
    At {
        /// The segment's number, from 0.
        segment: u32,
        /// The word's place in its segment, from 0.
        word: u32,
    },
    /// A field of a struct of the message.
    Item {
        /// The struct's name in the schema.
        kind: Word,
        /// The field's name; a tag is named with `_tag` after its union's word.
        field: Word,
        /// Which struct of that kind it is, in reading order from 0.
        index: u32,
    },
    /// A thing of the design, by its name.
    Named(Word),
    /// A cell.
    Cell(Word),
    /// A pin of a cell: the cell, then the pin.
    Pin(Word, Word),
    /// A segment of a net.
    Segment {
        /// The net's name.
        net: Word,
        /// The segment's place among the net's segments, in preorder, sources before stubs, from 0.
        index: u32,
    },
    /// A LUT element: its site, and its number in the site's type.
    Element(Word, u32),
    /// A site.
    Site(Word),
    /// A property, by its key.
    Key(Word),
}
