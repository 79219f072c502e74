//! Laws on netlists that were read, over the definitions alone.

ghost use Rattle.ix_phys_laws.specs.Laws.{ReadNetlistsAreSound, ReadNetlistsHaveRoom};

/// A physical netlist that was read is sound: its lists are no longer than a file can tell, its
/// numbers are names, and its trees are in preorder. What this asks are the clauses of `read_phys`,
/// and that no two names are alike, which a table of names tells with their number: a caller of
/// `read_phys` that asks `Names::len` after it and calls this has the whole.
pub fn read_netlists_are_sound()
    ensures { ReadNetlistsAreSound }
{}

/// A physical netlist that was read has room for a property for each of its placements.
pub fn read_netlists_have_room()
    ensures { ReadNetlistsHaveRoom }
{}
