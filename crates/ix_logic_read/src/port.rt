//! Ports.

ghost use Rattle.std.specs.Prelude.{◌≡◌, ◌<◌};
ghost use Rattle.ix_device_read.specs.Numbers.{direction_number};
ghost use Rattle.ix_logic_read.specs.Record.{port_kind_number};

use crate::context::NetlistContext;
use crate::entry::take_properties;
use ix_frame::Obj;
use ix_rec::{Direction, Port, PortKind};
use ix_take::{At, Stop, Take, Walk};

/// The direction with this number.
fn direction_of(n: u16) -> Direction
    requires { n < 3 }
    ensures { direction_number result ≡ n }
{
    match n {
        0 => Direction::Input,
        1 => Direction::Output,
        _ => Direction::Inout,
    }
}

/// The kind of port with this number.
fn kind_of(n: u16) -> PortKind
    requires { n < 2 }
    ensures { port_kind_number result ≡ n }
{
    match n {
        0 => PortKind::Bit,
        _ => PortKind::Bus,
    }
}

impl<'n, 'a> Take<NetlistContext<'n, 'a>> for Port {
    ghost use Rattle.ix_message.specs.Netlist.{port};
    ghost use Rattle.ix_logic_read.specs.Asking.{any_struct, asks_in, made_in};
    ghost use Rattle.ix_logic_read.specs.Record.{port_record, IsPortNamed};
    ghost use Rattle.ix_logic_read.specs.Structs.{netlist_structs};

    ghost structs = { netlist_structs };

    ghost shape = { port };

    ghost record_by = { λ c. port_record c.texts.names.now };

    ghost named = { λ c. IsPortNamed c.texts.names.now };

    ghost sound = { λ c. any_struct };

    ghost made = { made_in port };

    ghost asks = { asks_in port };

    fn take(o: Obj<'_>, ctx: &NetlistContext<'n, 'a>, walk: &mut Walk) -> Result<Port, Stop> {
        walk.begin(6);
        let at = At { o, kind: 6 };
        let name = at.name(&ctx.texts, walk, 0)?;
        let dir = direction_of(at.tag(walk, 1, 3)?);
        let kind = kind_of(at.tag(walk, 2, 2)?);
        let prop_map = take_properties(o, 0, ctx, walk)?;
        Ok(Port {
            name,
            dir,
            kind,
            bus_start: o.u32_at(3),
            bus_end: o.u32_at(4),
            prop_map,
        })
    }
}
