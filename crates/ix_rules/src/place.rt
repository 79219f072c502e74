//! Places as they are printed.

ghost use Rattle.std.specs.Prelude.{IfOk};
ghost use Rattle.ix_phys_write.specs.Record.{IsPhysNamed};
ghost use Rattle.ix_legal.specs.Legal.{IsPlaceOf};
ghost use Rattle.ix_rules.specs.Stages.{IsInside};

use ix_legal::Spot;
use ix_num::Memory;
use ix_rec::{Phys, Place, Word};
use ix_strings::Names;
use std::alloc::Global;

/// A place of the walk as it is printed: things by their names, a net as its segment 0. `Memory` is
/// the only error.
pub(crate) fn place_of(
    alloc: Global,
    phys: &Phys,
    names: &Names,
    spot: Spot,
) -> Result<Place, Memory>
    requires named { IsPhysNamed names.now phys.now }
    requires inside { IsInside phys.now spot }
    ensures { IfOk result (IsPlaceOf names.now phys.now spot) }
{
    match spot {
        Spot::InstanceAt(i) => {
            let site = names.name(phys.site_insts.at(i as usize).site);
            Ok(Place::Site(Word::new(alloc, site)?))
        }
        Spot::PlacementAt(i) => {
            let cell = names.name(phys.placements.at(i as usize).cell_name);
            Ok(Place::Cell(Word::new(alloc, cell)?))
        }
        Spot::NetAt(n) => {
            let net = Word::new(alloc, names.name(phys.nets.at(n as usize).name))?;
            Ok(Place::Segment { net, index: 0 })
        }
        Spot::SegmentAt(n, index) => {
            let net = Word::new(alloc, names.name(phys.nets.at(n as usize).name))?;
            Ok(Place::Segment { net, index })
        }
        Spot::PropertyAt(i) => {
            let key = names.name(phys.properties.at(i as usize).key);
            Ok(Place::Key(Word::new(alloc, key)?))
        }
        Spot::ElementAt(i, element) => {
            let site = names.name(phys.site_insts.at(i as usize).site);
            Ok(Place::Element(Word::new(alloc, site)?, element))
        }
    }
}
