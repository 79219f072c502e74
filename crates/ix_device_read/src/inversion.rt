//! How a BEL inverts.

ghost use Rattle.std.specs.Prelude.{◌≡◌, ◌%◌, ◌^◌};
ghost use Rattle.ix_frame.specs.Objects.{u32_in};
ghost use Rattle.ix_frame.specs.Views.{object_of};
ghost use Rattle.ix_device_read.specs.Finish.{inversion_asked};
ghost use Rattle.ix_device_read.specs.Numbers.{inversion_data};
ghost use Rattle.ix_device_read.specs.Views.{sizes_of, Meets};

use crate::at::At;
use crate::context::{Context, Scope};
use crate::stop::Stop;
use crate::walk::Walk;
use ix_frame::Obj;
use ix_num::BelPinId;
use ix_rec::Inversion;

/// How this BEL inverts. Its pins are asked where it inverts.
#[tactic(auto, unfolding(crate::specs::Finish::finish_row, crate::specs::Views::kind_word, crate::specs::Views::field_word))]
pub fn inversion_of(
    o: Obj<'_>,
    ctx: &Context<'_>,
    scope: Scope,
    walk: &Walk,
) -> Result<Inversion, Stop>
    ensures { Meets inversion_data result (inversion_asked (sizes_of ctx.now scope) walk.now
        (u32_in (object_of o.entry) 2 % 2 ^ 16) (u32_in (object_of o.entry) 3)
        (u32_in (object_of o.entry) 4)) }
{
    let at = At { o, kind: 2, scope };
    match o.tag_at(2) {
        0 => Ok(Inversion::NonInverting),
        1 => {
            let a = at.index(walk, 3, scope.bel_pins)?;
            let b = at.index(walk, 4, scope.bel_pins)?;
            Ok(Inversion::Inverting {
                non_inverting_pin: BelPinId::new(a),
                inverting_pin: BelPinId::new(b),
            })
        }
        _ => Err(at.stop(walk, 2)),
    }
}
