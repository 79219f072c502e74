//! The first numbers of the elements of instances.

ghost use Rattle.std.specs.Prelude.{◌≡◌, ◌<◌, ◌^◌, length, IfOk};
ghost use Rattle.ix_element_numbers.specs.Numbers.{AreBases, elements_of_instance};

use ix_device::Device;
use ix_num::Memory;
use ix_rec::{Items, SiteInstance};
use ix_walk::site_type_at;
use std::alloc::Global;

/// For each instance of a list how many elements those before it have, and how many all have.
#[derive(Drop)]
pub(crate) struct Bases {
    pub bases: Vec<usize>,
    pub count: usize,
}

// How many elements the site of an instance has. A site that isn't there has none.
fn element_count(device: &Device, instance: &SiteInstance) -> u32
    ensures { result ≡ elements_of_instance device.now instance.now }
{
    match site_type_at(device, instance.site) {
        Some(t) => device.elements(t),
        None => 0,
    }
}

/// The first numbers of the elements of instances, in their order. `Memory` is the only error.
pub(crate) fn bases_of(
    alloc: Global,
    device: &Device,
    instances: &Items<SiteInstance>,
) -> Result<Bases, Memory>
    requires few { length instances.now < 2 ^ 31 }
    ensures { IfOk result (λ b. AreBases device.now instances.now (length instances.now)
        b.bases.items b.count) }
{
    let mut bases = Vec::new(alloc);
    let mut count = 0;
    for i in 0..instances.len() {
        bases.push(count)?;
        count += element_count(device, instances.at(i)) as usize;
    }
    Ok(Bases { bases, count })
}
