//! A law of the definitions.

ghost use Rattle.ix_phys_write.specs.Trees.{ForestsAreTrees};

/// The trees that a forest stands for have its list of depths and segments as their preorder.
pub fn forests_are_their_trees()
    ensures { ForestsAreTrees }
{}
