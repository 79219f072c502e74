//! L9 as a whole.

ghost use Rattle.std.specs.Prelude.{IfOk};
ghost use Rattle.ix_legal.specs.Legal.{IsSound};
ghost use Rattle.ix_legal.specs.LutTables.{IsTabled};
ghost use Rattle.ix_legal.specs.Names.{IsNamed};
ghost use Rattle.ix_legal.specs.Placements.{IsPlaced};
ghost use Rattle.ix_legal.specs.Spots.{Everywhere, Tells};
ghost use Rattle.ix_ends.specs.Ends.{AreEnds};
ghost use Rattle.ix_holders.specs.Holders.{AreHolders};
ghost use Rattle.ix_lut_places.specs.Places.{ArePlaces};
ghost use Rattle.ix_element_tables.specs.Sharing.{KeepsSharing};

use crate::first::first_break;
use crate::netlist::Netlist;
use crate::noted::noted_tables;
use ix_device::Device;
use ix_element_numbers::ElementNumbers;
use ix_ends::Ends;
use ix_holders::Holders;
use ix_legal::Spot;
use ix_lut_places::LutPlaces;
use ix_num::Memory;
use ix_rec::Phys;
use ix_strings::Names;
use ix_table_keys::{TableKeys, table_is_one};
use std::alloc::Global;

/// The first LUT element, by the instance of its site and then by its number, that breaks L9: one
/// in which a LUT is placed, and a plain cell besides, or which has no table, or whose table gives
/// one of its LUTs no function; none exactly where the rule is kept. `Memory` is the only error.
///
/// The netlist is one that keeps L1, L2 and L7. It takes 16 bytes a name and an element of an
/// instance and 8 an instance; for each placement the names of its site and its BEL are hashed
/// twice, and for each element with a LUT the key of its table once.
pub fn first_without_function(
    alloc: Global,
    device: &Device,
    phys: &Phys,
    names: &Names,
    places: &LutPlaces,
    ends: &Ends,
    holders: &Holders,
) -> Result<Option<Spot>, Memory>
    requires sound { IsSound names.now phys.now }
    requires named { Everywhere (IsNamed names.now device.now phys.now) }
    requires placed { Everywhere (IsPlaced device.now phys.now) }
    requires unshared { KeepsSharing device.now phys.now }
    requires places { ArePlaces device.now places.now }
    requires ends { AreEnds device.now phys.now ends.now }
    requires holders { AreHolders device.now phys.now ends.now holders.now }
    ensures told { IfOk result (Tells (IsTabled names.now device.now phys.now)) }
{
    let numbers = ElementNumbers::new(alloc, device, phys, names)?;
    let keys = TableKeys::new(alloc, phys, names)?;
    let on = Netlist {
        names,
        device,
        phys,
        places,
        numbers: &numbers,
        ends,
        holders,
    };
    let tables = noted_tables(alloc, &on, &keys)?;
    table_is_one();
    match first_break(&on, &tables) {
        None => Ok(None),
        Some(at) => Ok(Some(Spot::ElementAt(at.instance, at.element))),
    }
}
