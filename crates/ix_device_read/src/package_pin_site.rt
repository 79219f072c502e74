//! The site of a package pin.

ghost use Rattle.std.specs.Prelude.{◌≡◌, ◌%◌, ◌^◌, IfOk};
ghost use Rattle.ix_frame.specs.Objects.{u32_in};
ghost use Rattle.ix_frame.specs.Views.{object_of};
ghost use Rattle.ix_device_read.specs.Finish.{site_asked};
ghost use Rattle.ix_device_read.specs.Named.{limit_of, PinSiteNamed};
ghost use Rattle.ix_device_read.specs.Numbers.{site_data};
ghost use Rattle.ix_device_read.specs.Views.{sizes_of, Meets};

use crate::at::At;
use crate::context::{Context, Scope};
use crate::stop::Stop;
use crate::walk::Walk;
use ix_frame::Obj;
use ix_rec::PackagePinSite;

/// The site of this package pin. Its name is asked where there is one.
#[tactic(auto, unfolding(crate::specs::Finish::finish_row, crate::specs::Views::kind_word, crate::specs::Views::field_word))]
pub fn package_pin_site(
    o: Obj<'_>,
    ctx: &Context<'_>,
    scope: Scope,
    walk: &Walk,
) -> Result<PackagePinSite, Stop>
    ensures made { Meets (site_data ctx.now.names.now) result
        (site_asked (sizes_of ctx.now scope) walk.now (u32_in (object_of o.entry) 1 % 2 ^ 16)
        (u32_in (object_of o.entry) 2)) }
    ensures named { IfOk result (PinSiteNamed (limit_of ctx.now)) }
{
    let at = At { o, kind: 18, scope };
    match o.tag_at(1) {
        0 => Ok(PackagePinSite::NoSite),
        1 => {
            let site = at.name(ctx, walk, 2)?;
            Ok(PackagePinSite::Site(site))
        }
        _ => Err(at.stop(walk, 1)),
    }
}
