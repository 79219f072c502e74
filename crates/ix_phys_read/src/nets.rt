//! Nets.

ghost use Rattle.std.specs.Prelude.{◌≡◌, ◌<◌};
ghost use Rattle.ix_phys_write.specs.Record.{type_number};

use crate::branches::take_branches;
use crate::context::PhysContext;
use ix_frame::Obj;
use ix_rec::{NetType, PhysNet};
use ix_take::{At, Stop, Take, Walk};

/// The type of net with this number.
fn type_of(n: u16) -> NetType
    requires { n < 3 }
    ensures { type_number result ≡ n }
{
    match n {
        0 => NetType::Signal,
        1 => NetType::Gnd,
        _ => NetType::Vcc,
    }
}

impl<'n> Take<PhysContext<'n>> for PhysNet {
    ghost use Rattle.ix_message.specs.Phys.{phys_net};
    ghost use Rattle.ix_phys_write.specs.Record.{net_record};
    ghost use Rattle.ix_phys_read.specs.Forests.{IsNetTaken};
    ghost use Rattle.ix_phys_read.specs.Sound.{IsSound};
    ghost use Rattle.ix_phys_read.specs.Views.{made_in, asks_in};
    ghost use Rattle.ix_phys_read.specs.Walked.{counted_structs};

    ghost structs = { counted_structs };

    ghost shape = { phys_net };

    ghost record_by = { λ c. net_record c.texts.names.now };

    ghost named = { λ c. IsNetTaken c.texts.names.now };

    ghost sound = { λ c. IsSound phys_net };

    ghost made = { made_in phys_net };

    ghost asks = { asks_in phys_net };

    fn take(o: Obj<'_>, ctx: &PhysContext<'n>, walk: &mut Walk) -> Result<PhysNet, Stop> {
        walk.begin(2);
        let at = At { o, kind: 2 };
        let name = at.name(&ctx.texts, walk, 0)?;
        let ty = type_of(at.tag(walk, 1, 3)?);
        let sources = take_branches(o.sound_list(0), &ctx.texts, walk)?;
        let stubs = take_branches(o.sound_list(1), &ctx.texts, walk)?;
        Ok(PhysNet {
            name,
            ty,
            sources,
            stubs,
        })
    }
}
