//! Numbers of LUT elements.

ghost use Rattle.std.specs.Prelude.{◌≡◌, ◌<◌, length, IfOk, IfSome, IfNone};
ghost use Rattle.ix_legal.specs.Legal.{IsSound};
ghost use Rattle.ix_legal.specs.Placements.{IsPlaced};
ghost use Rattle.ix_legal.specs.Spots.{Everywhere};
ghost use Rattle.ix_element_numbers.specs.Numbers.{AreNumbers, IsInElement, IsInNone};

use crate::bases::bases_of;
use ix_device::Device;
use ix_num::Memory;
use ix_rec::{CellPlacement, Phys};
use ix_strings::Names;
use ix_table_keys::{PlacesByName, instances_by_name};
use std::alloc::Global;

/// Where a cell is placed that is in a LUT element.
#[derive(Clone, Copy)]
pub struct InElement {
    /// The instance of its site.
    pub instance: u32,
    /// The element, by its number in the site's type.
    pub element: u32,
    /// The element's number among those of all instances.
    pub number: usize,
}

/// The LUT elements of a netlist's instances by number: from 0, by instance and then by their
/// numbers in the site's type.
#[derive(Drop)]
pub struct ElementNumbers {
    // The first instance of each site, by the number of its name.
    pub(crate) instances: PlacesByName,
    // The number of each instance's first element.
    pub(crate) bases: Vec<usize>,
    // How many elements there are.
    pub(crate) count: usize,
}

impl ElementNumbers {
    /// The numbers of the elements of a netlist on a device. `Memory` is the only error. It takes
    /// 8 bytes a name and an instance.
    pub fn new(
        alloc: Global,
        device: &Device,
        phys: &Phys,
        names: &Names,
    ) -> Result<ElementNumbers, Memory>
        requires sound { IsSound names.now phys.now }
        ensures { IfOk result (AreNumbers device.now phys.now) }
    {
        let instances = instances_by_name(alloc, &phys.site_insts, names.len())?;
        let all = bases_of(alloc, device, &phys.site_insts)?;
        Ok(ElementNumbers {
            instances,
            bases: all.bases,
            count: all.count,
        })
    }

    /// How many elements there are. Their numbers are those below it.
    pub fn count(&self) -> usize
        ensures { result ≡ self.now.count }
    {
        self.count
    }

    /// The element in which the cell of a placement is placed; none exactly where its BEL is in
    /// none. It hashes the names of the site and of the BEL.
    ///
    /// The netlist is one that keeps L2.
    pub fn find(&self, device: &Device, phys: &Phys, placement: usize) -> Option<InElement>
        requires numbers { AreNumbers device.now phys.now self.now }
        requires placed { Everywhere (IsPlaced device.now phys.now) }
        requires inside { placement < length phys.now.placements }
        ensures element { IfSome result (IsInElement device.now phys.now placement) }
        ensures inside { IfSome result (λ at. at.number < self.now.count) }
        ensures none { IfNone result (IsInNone device.now phys.now placement) }
    {
        let placement = phys.placements.at(placement);
        let site = device.site(placement.site)?;
        let ty = device.type_of(site);
        let bel = device.bel(ty, placement.bel)?;
        let (element, _) = device.element_of(ty, bel)?;
        // The site has an instance, as the netlist keeps L2.
        let instance = self.instances.get(placement.site.get() as usize)?;
        let number = self.bases[instance as usize] + element as usize;
        Some(InElement {
            instance,
            element,
            number,
        })
    }
}
