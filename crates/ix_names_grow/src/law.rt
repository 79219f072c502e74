//! The law.

ghost use Rattle.std.specs.Prelude.{List, length};
ghost use Rattle.ix_message.specs.Shape.{Text};
ghost use Rattle.ix_rec.specs.declared.netlist.NetlistRec.{NetlistRec};
ghost use Rattle.ix_strings.specs.Names.{KeepsNumbers};
ghost use Rattle.ix_hierarchy.specs.Fits.{NetlistFits};
ghost use Rattle.ix_names_grow.specs.Grown.{IsGrown};

/// Where each name keeps its number, a netlist whose numbers are among the names has the same
/// texts over the larger table, and what is known of it by numbers stays.
pub fn names_grow()
    ensures { (old new : List Text) (design : NetlistRec) → KeepsNumbers old new
        → NetlistFits (length old) design → IsGrown old new design }
{}
