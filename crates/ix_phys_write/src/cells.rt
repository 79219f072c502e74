//! Placements with their pin maps, site instances, and properties.

ghost use Rattle.std.specs.Prelude.{◌≡◌};
ghost use Rattle.ix_message.specs.Phys.{pin_mapping, cell_placement, site_instance, property};
ghost use Rattle.ix_phys_write.specs.Record.{pin_mapping_record, placement_record};
ghost use Rattle.ix_phys_write.specs.Record.{site_instance_record, property_record, IsMappingNamed};
ghost use Rattle.ix_phys_write.specs.Record.{IsPlacementNamed, IsInstanceNamed, IsPropertyNamed};
ghost use Rattle.ix_phys_write.specs.Wide.{mapping_wide, placement_wide, instance_wide};
ghost use Rattle.ix_phys_write.specs.Wide.{property_wide};

use ix_capw::{At, BuildFault, Builder};
use ix_message::slots;
use ix_message_write::{Strings, StructWriter, note_list, write_list, write_row};
use ix_rec::{CellPlacement, PinMapping, Property, SiteInstance};
use ix_strings::Names;
use std::alloc::Global;

/// `PinMapping`.
pub struct PinMappings;

impl StructWriter for PinMappings {
    type Item = PinMapping;

    ghost shape = { pin_mapping };

    ghost record_by = { pin_mapping_record };

    ghost is_named = { IsMappingNamed };

    ghost WORDS = { 2 };

    ghost POINTERS = { 0 };

    const WORDS: u16 = slots::pin_mapping::DATA_WORDS as u16;

    const POINTERS: u16 = slots::pin_mapping::POINTERS as u16;

    #[tactic(auto, unfolding(ix_message::specs::Names::uses, ix_message::specs::Names::part_uses))]
    fn note(item: &PinMapping, names: &Names, strings: &mut Strings) -> Result<(), BuildFault> {
        strings.note_all(names, &[item.cell_pin, item.bel, item.bel_pin])
    }

    fn write(
        _alloc: Global,
        item: &PinMapping,
        names: &Names,
        strings: &Strings,
        builder: &mut Builder,
        at: At,
    ) -> Result<(), BuildFault> {
        let row = [
            strings.place(names, item.cell_pin),
            strings.place(names, item.bel),
            strings.place(names, item.bel_pin),
        ];
        write_row(builder, at, &row);
        Ok(())
    }

    ghost is_wide = { mapping_wide };
}

/// `CellPlacement`.
pub struct Placements;

impl StructWriter for Placements {
    type Item = CellPlacement;

    ghost shape = { cell_placement };

    ghost record_by = { placement_record };

    ghost is_named = { IsPlacementNamed };

    ghost WORDS = { 2 };

    ghost POINTERS = { 1 };

    const WORDS: u16 = slots::cell_placement::DATA_WORDS as u16;

    const POINTERS: u16 = slots::cell_placement::POINTERS as u16;

    fn note(item: &CellPlacement, names: &Names, strings: &mut Strings) -> Result<(), BuildFault> {
        match strings.note_all(names, &[item.cell_name, item.ty, item.site, item.bel]) {
            Ok(()) => {}
            Err(fault) => return Err(fault),
        }
        match note_list::<PinMappings>(&item.pin_map, names, strings) {
            Ok(()) => Ok(()),
            Err(fault) => Err(fault),
        }
    }

    fn write(
        alloc: Global,
        item: &CellPlacement,
        names: &Names,
        strings: &Strings,
        builder: &mut Builder,
        at: At,
    ) -> Result<(), BuildFault> {
        let row = [
            strings.place(names, item.cell_name),
            strings.place(names, item.ty),
            strings.place(names, item.site),
            strings.place(names, item.bel),
        ];
        write_row(builder, at, &row);
        let slot = slots::cell_placement::PIN_MAP as u16;
        match write_list::<PinMappings>(alloc, &item.pin_map, names, strings, builder, at, slot) {
            Ok(()) => Ok(()),
            Err(fault) => Err(fault),
        }
    }

    ghost is_wide = { placement_wide };
}

/// `SiteInstance`.
pub struct SiteInstances;

impl StructWriter for SiteInstances {
    type Item = SiteInstance;

    ghost shape = { site_instance };

    ghost record_by = { site_instance_record };

    ghost is_named = { IsInstanceNamed };

    ghost WORDS = { 1 };

    ghost POINTERS = { 0 };

    const WORDS: u16 = slots::site_instance::DATA_WORDS as u16;

    const POINTERS: u16 = slots::site_instance::POINTERS as u16;

    #[tactic(auto, unfolding(ix_message::specs::Names::uses, ix_message::specs::Names::part_uses))]
    fn note(item: &SiteInstance, names: &Names, strings: &mut Strings) -> Result<(), BuildFault> {
        strings.note_all(names, &[item.site, item.ty])
    }

    fn write(
        _alloc: Global,
        item: &SiteInstance,
        names: &Names,
        strings: &Strings,
        builder: &mut Builder,
        at: At,
    ) -> Result<(), BuildFault> {
        let row = [
            strings.place(names, item.site),
            strings.place(names, item.ty),
        ];
        write_row(builder, at, &row);
        Ok(())
    }

    ghost is_wide = { instance_wide };
}

/// `Property`.
pub struct Properties;

impl StructWriter for Properties {
    type Item = Property;

    ghost shape = { property };

    ghost record_by = { property_record };

    ghost is_named = { IsPropertyNamed };

    ghost WORDS = { 1 };

    ghost POINTERS = { 0 };

    const WORDS: u16 = slots::property::DATA_WORDS as u16;

    const POINTERS: u16 = slots::property::POINTERS as u16;

    #[tactic(auto, unfolding(ix_message::specs::Names::uses, ix_message::specs::Names::part_uses))]
    fn note(item: &Property, names: &Names, strings: &mut Strings) -> Result<(), BuildFault> {
        strings.note_all(names, &[item.key, item.value])
    }

    fn write(
        _alloc: Global,
        item: &Property,
        names: &Names,
        strings: &Strings,
        builder: &mut Builder,
        at: At,
    ) -> Result<(), BuildFault> {
        let row = [
            strings.place(names, item.key),
            strings.place(names, item.value),
        ];
        write_row(builder, at, &row);
        Ok(())
    }

    ghost is_wide = { property_wide };
}
