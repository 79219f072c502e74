//! A law over the definitions, which calls of other crates rest on.

ghost use Rattle.std.specs.Prelude.{ℕ, List};
ghost use Rattle.ix_rec.specs.declared.netlist.NetlistRec.{NetlistRec};
ghost use Rattle.ix_hierarchy.specs.declared.instance.Instance.{Instance};
ghost use Rattle.ix_hierarchy.specs.Hierarchy.{Path};
ghost use Rattle.ix_hierarchy.specs.Lists.{AreInstances};
ghost use Rattle.ix_instance_lists.specs.Listed.{AreNumbered};

/// Each occurrence of a net has one number, and numbers are in the order of the walk.
pub fn numbers_are_order()
    ensures { (design : NetlistRec) (all : List Instance) (paths : List Path) (nets : ℕ)
        → AreInstances design all paths nets → AreNumbered design all paths nets }
{}
