//! The whole netlist.

ghost use Rattle.std.specs.Prelude.{◌≡◌, false, IsTrue, Ok, Err, IfOk, OnOk};
ghost use Rattle.ix_message.specs.Message.{encoding, is_too_long, reading};
ghost use Rattle.ix_message.specs.Phys.{phys_netlist};
ghost use Rattle.ix_phys_write.specs.Record.{phys_record, IsPhysNamed};
ghost use Rattle.ix_phys_write.specs.Wide.{phys_wide};

use crate::cells::{Placements, Properties, SiteInstances};
use crate::nets::Nets;
use ix_capw::{At, BuildFault, Builder};
use ix_message::slots;
use ix_message_write::{
    Strings, StructWriter, names_are_utf8, note_list, write_list, write_message, write_strings,
    write_text,
};
use ix_rec::Phys;
use ix_strings::Names;
use std::alloc::Global;

/// The file of a physical netlist, which reads again as the netlist.
///
/// # Errors
///
/// `TooLong` where the message is too long, `Memory`.
pub fn write_phys(alloc: Global, phys: &Phys, names: &Names) -> Result<Vec<u8>, BuildFault>
    requires { IsPhysNamed names.now phys.now }
    ensures bytes { IfOk result (λ file. file.items
        ≡ encoding phys_netlist (phys_record names.now phys.now)) }
    ensures reads { IfOk result (λ file. reading phys_netlist file.items
        ≡ Ok (phys_record names.now phys.now)) }
    ensures fits { OnOk result (is_too_long phys_netlist (phys_record names.now phys.now) ≡ false) }
    ensures too_long { result ≡ Err BuildFault.TooLong
        → IsTrue (is_too_long phys_netlist (phys_record names.now phys.now)) }
{
    // Only texts in UTF-8 read again.
    names_are_utf8(names);
    write_message::<Netlist>(alloc, phys, names)
}

/// `PhysNetlist`.
pub struct Netlist;

impl StructWriter for Netlist {
    type Item = Phys;

    ghost shape = { phys_netlist };

    ghost record_by = { phys_record };

    ghost is_named = { IsPhysNamed };

    ghost WORDS = { 0 };

    ghost POINTERS = { 6 };

    const WORDS: u16 = slots::phys_netlist::DATA_WORDS as u16;

    const POINTERS: u16 = slots::phys_netlist::POINTERS as u16;

    fn note(item: &Phys, names: &Names, strings: &mut Strings) -> Result<(), BuildFault> {
        match note_list::<Placements>(&item.placements, names, strings) {
            Ok(()) => {}
            Err(fault) => return Err(fault),
        }
        match note_list::<Nets>(&item.nets, names, strings) {
            Ok(()) => {}
            Err(fault) => return Err(fault),
        }
        match note_list::<SiteInstances>(&item.site_insts, names, strings) {
            Ok(()) => {}
            Err(fault) => return Err(fault),
        }
        match note_list::<Properties>(&item.properties, names, strings) {
            Ok(()) => Ok(()),
            Err(fault) => Err(fault),
        }
    }

    fn write(
        alloc: Global,
        item: &Phys,
        names: &Names,
        strings: &Strings,
        builder: &mut Builder,
        at: At,
    ) -> Result<(), BuildFault> {
        let slot = slots::phys_netlist::PART as u16;
        match write_text(builder, at, slot, names.name(item.part)) {
            Ok(()) => {}
            Err(fault) => return Err(fault),
        }
        let slot = slots::phys_netlist::STR_LIST as u16;
        match write_strings(strings, names, builder, at, slot) {
            Ok(()) => {}
            Err(fault) => return Err(fault),
        }
        let slot = slots::phys_netlist::PLACEMENTS as u16;
        match write_list::<Placements>(alloc, &item.placements, names, strings, builder, at, slot) {
            Ok(()) => {}
            Err(fault) => return Err(fault),
        }
        let slot = slots::phys_netlist::PHYS_NETS as u16;
        match write_list::<Nets>(alloc, &item.nets, names, strings, builder, at, slot) {
            Ok(()) => {}
            Err(fault) => return Err(fault),
        }
        let slot = slots::phys_netlist::SITE_INSTS as u16;
        match write_list::<SiteInstances>(
            alloc,
            &item.site_insts,
            names,
            strings,
            builder,
            at,
            slot,
        ) {
            Ok(()) => {}
            Err(fault) => return Err(fault),
        }
        let slot = slots::phys_netlist::PROPERTIES as u16;
        match write_list::<Properties>(alloc, &item.properties, names, strings, builder, at, slot) {
            Ok(()) => Ok(()),
            Err(fault) => Err(fault),
        }
    }

    ghost is_wide = { phys_wide };
}
