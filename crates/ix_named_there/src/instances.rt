//! L1 of site instances.

ghost use Rattle.std.specs.Prelude.{◌≡◌, ◌<◌, ◌^◌, length, None, false};
ghost use Rattle.std.specs.Bool.{Decides};
ghost use Rattle.ix_num.specs.Numbers.{NameNumber};
ghost use Rattle.ix_legal.specs.Names.{InstanceIsNamed};
ghost use Rattle.ix_walk.specs.Firsts.{TellsMisfit};
ghost use Rattle.ix_walk.specs.Marks.{has_mark, AreNamesOf};
ghost use Rattle.ix_named_there.specs.Parts.{AreInside, InstanceNamedAt, site_of};

use ix_device::Device;
use ix_rec::{Items, SiteInstance};
use ix_walk::NameMarks;

// Whether the site and the site type are there.
fn is_named(device: &Device, instance: &SiteInstance) -> bool
    ensures { Decides result (InstanceIsNamed device.now instance.now) }
{
    device.site(instance.site).is_some() && device.site_type(instance.ty).is_some()
}

/// The place of the first instance that breaks L1. Their sites are marked.
pub(crate) fn first_instance(
    device: &Device,
    instances: &Items<SiteInstance>,
    sites: &mut NameMarks,
) -> Option<u32>
    requires few { length instances.now < 2 ^ 32 }
    requires inside { AreInside site_of instances.now (length sites.old) }
    requires unmarked { (site : NameNumber) → has_mark sites.old site ≡ false }
    ensures told { TellsMisfit (InstanceNamedAt device.now) instances.now result }
    ensures marked { result ≡ None → AreNamesOf site_of instances.now sites.new }
{
    for i in 0..instances.len() {
        let instance = instances.at(i);
        let _new = sites.add(instance.site);
        if !is_named(device, instance) {
            return Some(i as u32);
        }
    }
    None
}
