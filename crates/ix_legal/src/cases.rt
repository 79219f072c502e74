//! The rules tried on two small netlists.

ghost use Rattle.std.specs.Prelude.{codes};
ghost use Rattle.ix_rec.specs.declared.place.Place.TheVariants.{Segment};
ghost use Rattle.ix_rec.specs.declared.place.Rule.TheVariants.{L10};
ghost use Rattle.ix_legal.specs.declared.level.Level.TheVariants.{Placed, Routed};
ghost use Rattle.ix_legal.specs.Legal.{Legal, IsFirstBroken};
ghost use Rattle.ix_legal.specs.Small.{names, device, with_net, placed, routed};

/// A net of four segments in one chain is legal at level routed. With its second half as a stub it
/// is legal at level placed, and at level routed breaks L10 at the stub's root.
pub fn small_netlists()
    ensures routed { Legal Routed names device (with_net routed) }
    ensures placed { Legal Placed names device (with_net placed) }
    ensures stub { let place = Segment (codes "n0") 2
        in IsFirstBroken Routed names device (with_net placed) L10 place }
{}
