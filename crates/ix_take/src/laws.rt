//! Laws over the definitions, each the contract of a function with nothing to do.

ghost use Rattle.ix_take.specs.Walks.{FindsFirst};

/// The walk over the steps of a message finds the first field that is out of its list.
pub fn walk_finds_first()
    ensures { FindsFirst }
{}
