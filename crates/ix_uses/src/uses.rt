//! The uses of a netlist.

ghost use Rattle.std.specs.Prelude.{◌≡◌, ◌<◌, ◌^◌, length, IfOk};
ghost use Rattle.ix_legal.specs.Legal.{IsSound};
ghost use Rattle.ix_legal.specs.Placements.{IsPlaced};
ghost use Rattle.ix_legal.specs.Spots.{Everywhere};
ghost use Rattle.ix_walk.specs.Marks.{AreNamesOf};
ghost use Rattle.ix_uses.specs.Fitting.{AllInstancesFit, AreInside, cell_of, site_of};
ghost use Rattle.ix_uses.specs.Uses.{AreUses, IsRefused, is_used, holds_cell};

use crate::fault::UsesFault;
use crate::instances::first_misused;
use crate::placements::first_misplaced;
use ix_device::Device;
use ix_keys::{Key, Keys};
use ix_legal::Spot;
use ix_num::NameId;
use ix_rec::Phys;
use ix_strings::Names;
use ix_walk::NameMarks;
use std::alloc::Global;
use std::marker::Model;

/// Which sites of a netlist have instances, and which of their BELs have cells. It takes a byte a
/// name of the run's table, and a table of the placements.
#[derive(Drop)]
pub struct Uses {
    sites: NameMarks,
    bels: Keys,
}

impl Model for Uses {
    ghost use Rattle.ix_uses.specs.Uses.{UsesSeen};

    ghost Value = { UsesSeen };

    ghost view = { λ u. record { sites = u.sites; bels = u.bels } };
}

impl Uses {
    /// The uses of a netlist; or the first place at which it breaks L2. It takes time
    /// by the instances and placements, and memory for a byte a name and a table of the placements.
    ///
    /// # Errors
    ///
    /// `Broken` exactly where L2 is broken; `Memory`.
    pub fn new(
        alloc: Global,
        device: &Device,
        phys: &Phys,
        names: &Names,
    ) -> Result<Uses, UsesFault>
        requires sound { IsSound names.now phys.now }
        ensures uses { IfOk result (AreUses phys.now) }
        ensures kept { IfOk result (λ uses. Everywhere (IsPlaced device.now phys.now)) }
        ensures broken { IsRefused device.now phys.now result }
    {
        let count = names.len();
        let mut sites = NameMarks::new(alloc, count)?;
        match first_misused(device, &phys.site_insts, &mut sites) {
            Some(i) => Err(UsesFault::Broken(Spot::InstanceAt(i))),
            None => Uses::with_cells(alloc, device, phys, sites, count),
        }
    }

    // The uses of a netlist whose sites are marked; the names of its cells are below the count.
    fn with_cells(
        alloc: Global,
        device: &Device,
        phys: &Phys,
        sites: NameMarks,
        count: u32,
    ) -> Result<Uses, UsesFault>
        requires few { length phys.now.placements < 2 ^ 32 }
        requires inside { AreInside cell_of phys.now.placements count }
        requires fit { AllInstancesFit device.now phys.now }
        requires marked { AreNamesOf site_of phys.now.site_insts sites }
        ensures uses { IfOk result (AreUses phys.now) }
        ensures kept { IfOk result (λ uses. Everywhere (IsPlaced device.now phys.now)) }
        ensures broken { IsRefused device.now phys.now result }
    {
        let mut cells = NameMarks::new(alloc, count)?;
        let mut bels = Keys::new(alloc);
        match first_misplaced(device, phys, &sites, &mut cells, &mut bels) {
            Ok(Some(i)) => Err(UsesFault::Broken(Spot::PlacementAt(i))),
            Ok(None) => Ok(Uses { sites, bels }),
            Err(_) => Err(UsesFault::Memory),
        }
    }

    /// Whether a site of this name has an instance. A name past the table's has none.
    #[tactic(auto, unfolding(crate::specs::Uses::is_used))]
    pub fn has_instance(&self, site: NameId) -> bool
        ensures { result ≡ is_used self.now site }
    {
        self.sites.has(site)
    }

    /// Whether a cell is on a BEL of a site, by their names. The two are hashed once.
    #[tactic(auto, unfolding(crate::specs::Uses::holds_cell))]
    pub fn has_cell(&self, site: NameId, bel: NameId) -> bool
        ensures { result ≡ holds_cell self.now site bel }
    {
        self.bels.has(Key::new(site.get(), bel.get(), 0))
    }
}
