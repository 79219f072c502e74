//! L2 of site instances.

ghost use Rattle.std.specs.Prelude.{◌≡◌, ◌<◌, ◌^◌, length, Some, None, false};
ghost use Rattle.std.specs.Bool.{Decides};
ghost use Rattle.ix_num.specs.Numbers.{NameNumber};
ghost use Rattle.ix_device.specs.Lookups.{site_type_number};
ghost use Rattle.ix_legal.specs.Sites.{type_at};
ghost use Rattle.ix_walk.specs.Firsts.{TellsMisfit};
ghost use Rattle.ix_walk.specs.Marks.{has_mark, AreNamesOf};
ghost use Rattle.ix_uses.specs.Fitting.{InstanceFitsAt, AreInside, site_of};

use ix_device::Device;
use ix_rec::{Items, SiteInstance};
use ix_walk::{NameMarks, site_type_at};

// Whether a site is used as its own type.
fn has_own_type(device: &Device, instance: &SiteInstance) -> bool
    ensures { Decides result (site_type_number device.now instance.now.ty
        ≡ type_at device.now instance.now.site) }
{
    device.site_type(instance.ty) == site_type_at(device, instance.site)
}

/// The place of the first instance that breaks L2. Their sites are marked.
pub(crate) fn first_misused(
    device: &Device,
    instances: &Items<SiteInstance>,
    sites: &mut NameMarks,
) -> Option<u32>
    requires few { length instances.now < 2 ^ 32 }
    requires inside { AreInside site_of instances.now (length sites.old) }
    requires unmarked { (site : NameNumber) → has_mark sites.old site ≡ false }
    ensures told { TellsMisfit (InstanceFitsAt device.now instances.now) instances.now result }
    ensures marked { result ≡ None → AreNamesOf site_of instances.now sites.new }
{
    for i in 0..instances.len() {
        let instance = instances.at(i);
        let new = sites.add(instance.site);
        if !(new && has_own_type(device, instance)) {
            return Some(i as u32);
        }
    }
    None
}
