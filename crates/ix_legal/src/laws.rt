//! Laws on legal netlists, over the definitions alone.

ghost use Rattle.ix_legal.specs.Laws.{TreesFollow, RoutedIsPlaced, HoldersAreOne, AnswersAreOne};
ghost use Rattle.ix_legal.specs.Laws.{BrokenIsNotLegal};

/// In a netlist that is legal at level routed, each net is a tree from its driver, or trees from
/// the sources of its constant.
pub fn trees_follow()
    ensures law { TreesFollow }
{}

/// A netlist that is legal at level routed is legal at level placed.
pub fn routed_is_placed()
    ensures law { RoutedIsPlaced }
{}

/// No resource has two holders in a netlist that keeps L7, as far as its level asks it.
pub fn holders_are_one()
    ensures law { HoldersAreOne }
{}

/// Of each netlist at most one answer can be given: that it is legal, or the least rule that it
/// breaks with the first place.
pub fn answers_are_one()
    ensures law { AnswersAreOne }
{}

/// The answer is that no rule is broken exactly where the netlist is legal.
pub fn broken_is_not_legal()
    ensures law { BrokenIsNotLegal }
{}
