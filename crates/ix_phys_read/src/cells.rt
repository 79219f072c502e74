//! Placements, site instances and properties.

use crate::context::PhysContext;
use ix_frame::Obj;
use ix_rec::{CellPlacement, PinMapping, Property, SiteInstance};
use ix_take::{At, Stop, Take, Walk, take_list};

impl<'n> Take<PhysContext<'n>> for PinMapping {
    ghost use Rattle.ix_message.specs.Phys.{pin_mapping};
    ghost use Rattle.ix_phys_write.specs.Record.{pin_mapping_record, IsMappingNamed};
    ghost use Rattle.ix_phys_read.specs.Sound.{any_struct};
    ghost use Rattle.ix_phys_read.specs.Views.{made_in, asks_in};
    ghost use Rattle.ix_phys_read.specs.Walked.{counted_structs};

    ghost structs = { counted_structs };

    ghost shape = { pin_mapping };

    ghost record_by = { λ c. pin_mapping_record c.texts.names.now };

    ghost named = { λ c. IsMappingNamed c.texts.names.now };

    ghost sound = { λ c. any_struct };

    ghost made = { made_in pin_mapping };

    ghost asks = { asks_in pin_mapping };

    fn take(o: Obj<'_>, ctx: &PhysContext<'n>, walk: &mut Walk) -> Result<PinMapping, Stop> {
        walk.begin(0);
        let at = At { o, kind: 0 };
        let cell_pin = at.name(&ctx.texts, walk, 0)?;
        let bel = at.name(&ctx.texts, walk, 1)?;
        let bel_pin = at.name(&ctx.texts, walk, 2)?;
        Ok(PinMapping {
            cell_pin,
            bel,
            bel_pin,
        })
    }
}

impl<'n> Take<PhysContext<'n>> for CellPlacement {
    ghost use Rattle.ix_message.specs.Phys.{cell_placement};
    ghost use Rattle.ix_phys_write.specs.Record.{placement_record, IsPlacementNamed};
    ghost use Rattle.ix_phys_read.specs.Sound.{any_struct};
    ghost use Rattle.ix_phys_read.specs.Views.{made_in, asks_in};
    ghost use Rattle.ix_phys_read.specs.Walked.{counted_structs};

    ghost structs = { counted_structs };

    ghost shape = { cell_placement };

    ghost record_by = { λ c. placement_record c.texts.names.now };

    ghost named = { λ c. IsPlacementNamed c.texts.names.now };

    ghost sound = { λ c. any_struct };

    ghost made = { made_in cell_placement };

    ghost asks = { asks_in cell_placement };

    fn take(o: Obj<'_>, ctx: &PhysContext<'n>, walk: &mut Walk) -> Result<CellPlacement, Stop> {
        walk.begin(1);
        let at = At { o, kind: 1 };
        let cell_name = at.name(&ctx.texts, walk, 0)?;
        let ty = at.name(&ctx.texts, walk, 1)?;
        let site = at.name(&ctx.texts, walk, 2)?;
        let bel = at.name(&ctx.texts, walk, 3)?;
        let pin_map = take_list(ctx.texts.alloc, o.sound_list(0), ctx, walk)?;
        Ok(CellPlacement {
            cell_name,
            ty,
            site,
            bel,
            pin_map,
        })
    }
}

impl<'n> Take<PhysContext<'n>> for SiteInstance {
    ghost use Rattle.ix_message.specs.Phys.{site_instance};
    ghost use Rattle.ix_phys_write.specs.Record.{site_instance_record, IsInstanceNamed};
    ghost use Rattle.ix_phys_read.specs.Sound.{any_struct};
    ghost use Rattle.ix_phys_read.specs.Views.{made_in, asks_in};
    ghost use Rattle.ix_phys_read.specs.Walked.{counted_structs};

    ghost structs = { counted_structs };

    ghost shape = { site_instance };

    ghost record_by = { λ c. site_instance_record c.texts.names.now };

    ghost named = { λ c. IsInstanceNamed c.texts.names.now };

    ghost sound = { λ c. any_struct };

    ghost made = { made_in site_instance };

    ghost asks = { asks_in site_instance };

    fn take(o: Obj<'_>, ctx: &PhysContext<'n>, walk: &mut Walk) -> Result<SiteInstance, Stop> {
        walk.begin(3);
        let at = At { o, kind: 3 };
        let site = at.name(&ctx.texts, walk, 0)?;
        let ty = at.name(&ctx.texts, walk, 1)?;
        Ok(SiteInstance { site, ty })
    }
}

impl<'n> Take<PhysContext<'n>> for Property {
    ghost use Rattle.ix_message.specs.Phys.{property};
    ghost use Rattle.ix_phys_write.specs.Record.{property_record, IsPropertyNamed};
    ghost use Rattle.ix_phys_read.specs.Sound.{any_struct};
    ghost use Rattle.ix_phys_read.specs.Views.{made_in, asks_in};
    ghost use Rattle.ix_phys_read.specs.Walked.{counted_structs};

    ghost structs = { counted_structs };

    ghost shape = { property };

    ghost record_by = { λ c. property_record c.texts.names.now };

    ghost named = { λ c. IsPropertyNamed c.texts.names.now };

    ghost sound = { λ c. any_struct };

    ghost made = { made_in property };

    ghost asks = { asks_in property };

    fn take(o: Obj<'_>, ctx: &PhysContext<'n>, walk: &mut Walk) -> Result<Property, Stop> {
        walk.begin(4);
        let at = At { o, kind: 4 };
        let key = at.name(&ctx.texts, walk, 0)?;
        let value = at.name(&ctx.texts, walk, 1)?;
        Ok(Property { key, value })
    }
}
