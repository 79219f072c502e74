//! What names lead to in a site.

ghost use Rattle.std.specs.Prelude.{◌≡◌, ◌<◌, length, IfSome};
ghost use Rattle.ix_legal.specs.Sites.{type_at};

use ix_device::Device;
use ix_num::{NameId, SiteTypeId};

/// The type of the site of this name; none exactly where there is no such site. The name is hashed
/// once.
pub fn site_type_at(device: &Device, site: NameId) -> Option<SiteTypeId>
    ensures ty { result ≡ type_at device.now site }
    ensures inside { IfSome result (λ t. t < length device.now.site_type_list) }
{
    let site = device.site(site)?;
    Some(device.type_of(site))
}
