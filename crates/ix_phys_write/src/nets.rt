//! Nets.

ghost use Rattle.std.specs.Prelude.{◌≡◌};
ghost use Rattle.ix_message.specs.Phys.{phys_net};
ghost use Rattle.ix_phys_write.specs.Record.{net_record, type_number, IsNetNamed};
ghost use Rattle.ix_phys_write.specs.Wide.{net_wide};

use crate::branches::{note_branches, write_branches};
use ix_capw::{At, BuildFault, Builder};
use ix_message::slots;
use ix_message_write::{Strings, StructWriter, write_row};
use ix_rec::{NetType, PhysNet};
use ix_strings::Names;
use std::alloc::Global;

/// `PhysNet`.
pub struct Nets;

impl StructWriter for Nets {
    type Item = PhysNet;

    ghost shape = { phys_net };

    ghost record_by = { net_record };

    ghost is_named = { IsNetNamed };

    ghost WORDS = { 1 };

    ghost POINTERS = { 2 };

    const WORDS: u16 = slots::phys_net::DATA_WORDS as u16;

    const POINTERS: u16 = slots::phys_net::POINTERS as u16;

    fn note(item: &PhysNet, names: &Names, strings: &mut Strings) -> Result<(), BuildFault> {
        match strings.note_all(names, &[item.name]) {
            Ok(()) => {}
            Err(fault) => return Err(fault),
        }
        match note_branches(&item.sources, names, strings) {
            Ok(()) => {}
            Err(fault) => return Err(fault),
        }
        match note_branches(&item.stubs, names, strings) {
            Ok(()) => Ok(()),
            Err(fault) => Err(fault),
        }
    }

    fn write(
        alloc: Global,
        item: &PhysNet,
        names: &Names,
        strings: &Strings,
        builder: &mut Builder,
        at: At,
    ) -> Result<(), BuildFault> {
        let row = [strings.place(names, item.name), number_of_type(item.ty)];
        write_row(builder, at, &row);
        let slot = slots::phys_net::SOURCES as u16;
        match write_branches(alloc, &item.sources, names, strings, builder, at, slot) {
            Ok(()) => {}
            Err(fault) => return Err(fault),
        }
        let slot = slots::phys_net::STUBS as u16;
        match write_branches(alloc, &item.stubs, names, strings, builder, at, slot) {
            Ok(()) => Ok(()),
            Err(fault) => Err(fault),
        }
    }

    ghost is_wide = { net_wide };
}

fn number_of_type(ty: NetType) -> u32
    ensures { result ≡ type_number ty }
{
    match ty {
        NetType::Signal => 0,
        NetType::Gnd => 1,
        NetType::Vcc => 2,
    }
}
