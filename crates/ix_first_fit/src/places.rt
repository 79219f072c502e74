//! The places that are taken.

ghost use Rattle.std.specs.Prelude.{◌≡◌, [], ◌∷◌, ◌++◌, IfOk};
ghost use Rattle.ix_first_fit.specs.Spots.{is_taken};
ghost use Rattle.ix_first_fit.specs.Taken.{spot_key};

use crate::cell::Spot;
use ix_first::FirstByKey;
use ix_keys::Key;
use ix_num::Memory;
use ix_rec::Items;
use std::alloc::Global;
use std::marker::Model;

/// The places that are taken, in the order in which they were. In contracts it is the list of them.
#[derive(Drop)]
pub(crate) struct Places {
    spots: Items<Spot>,
    table: FirstByKey<()>,
}

impl Model for Places {
    ghost use Rattle.std.specs.Prelude.{List};
    ghost use Rattle.ix_first_fit.specs.declared.cell.Spot.{Spot as SpotSeen};
    ghost use Rattle.ix_first_fit.specs.Taken.{AreTaken};

    ghost Value = { List SpotSeen };

    ghost view = { λ p. p.spots };

    ghost invariant = { λ p. AreTaken p.spots p.table };
}

// The key of a place.
fn key_of(spot: &Spot) -> Key
    ensures { result ≡ spot_key spot.now }
{
    Key::new(spot.site.get(), spot.bel.get(), 0)
}

impl Places {
    /// None. They take their memory from the allocator as they grow.
    pub(crate) fn new(alloc: Global) -> Places
        ensures { result ≡ [] }
    {
        Places {
            spots: Items::new(alloc),
            table: FirstByKey::new(alloc),
        }
    }

    /// Whether a place is taken.
    pub(crate) fn has(&self, spot: &Spot) -> bool
        ensures { result ≡ is_taken self.now spot.now }
    {
        self.table.get(key_of(spot)).is_some()
    }

    /// These and one more.
    pub(crate) fn with(self, spot: &Spot) -> Result<Places, Memory>
        ensures { IfOk result (λ places. places ≡ self ++ spot.now ∷ []) }
    {
        let Places {
            mut spots,
            mut table,
        } = self;
        table.put(key_of(spot), ())?;
        spots.push(Spot {
            site: spot.site,
            bel: spot.bel,
        })?;
        Ok(Places { spots, table })
    }

    /// The list of them.
    pub(crate) fn into_spots(self) -> Items<Spot>
        ensures { result ≡ self }
    {
        self.spots
    }
}
