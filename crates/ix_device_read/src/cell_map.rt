//! Which pins of a cell stand for which of a BEL.

use crate::at::At;
use crate::context::{Context, Scope};
use crate::stop::Stop;
use crate::take::Take;
use crate::walk::Walk;
use ix_frame::Obj;
use ix_rec::{CellBelMapping, CellBelPinEntry, CommonCellBelPinMaps, SiteTypeBelEntry};

impl Take for SiteTypeBelEntry {
    ghost use Rattle.ix_message.specs.Device.{site_type_bel_entry};
    ghost use Rattle.ix_device_read.specs.Records.{site_type_bel_entry_record};
    ghost use Rattle.ix_device_read.specs.Named.{SiteTypeBelEntryNamed};

    ghost shape = { site_type_bel_entry };

    ghost record_by = { site_type_bel_entry_record };

    ghost named = { SiteTypeBelEntryNamed };

    #[tactic(auto, unfolding(ix_schema::specs::Said::said, ix_message::specs::Reading::row_at, crate::specs::Finish::finish_at, crate::specs::Finish::finish_row, crate::specs::Views::kind_word, crate::specs::Views::field_word))]
    fn take(
        o: Obj<'_>,
        ctx: &Context<'_>,
        scope: Scope,
        walk: &mut Walk,
    ) -> Result<SiteTypeBelEntry, Stop> {
        walk.begin(14);
        let at = At { o, kind: 14, scope };
        let site_type = at.name(ctx, walk, 0)?;
        let bels = at.names(ctx, walk, 0, 1)?;
        Ok(SiteTypeBelEntry { site_type, bels })
    }
}

impl Take for CellBelPinEntry {
    ghost use Rattle.ix_message.specs.Device.{cell_bel_pin_entry};
    ghost use Rattle.ix_device_read.specs.Records.{cell_bel_pin_entry_record};
    ghost use Rattle.ix_device_read.specs.Named.{CellBelPinEntryNamed};

    ghost shape = { cell_bel_pin_entry };

    ghost record_by = { cell_bel_pin_entry_record };

    ghost named = { CellBelPinEntryNamed };

    #[tactic(auto, unfolding(ix_schema::specs::Said::said, ix_message::specs::Reading::row_at, crate::specs::Finish::finish_at, crate::specs::Finish::finish_row, crate::specs::Views::kind_word, crate::specs::Views::field_word))]
    fn take(
        o: Obj<'_>,
        ctx: &Context<'_>,
        scope: Scope,
        walk: &mut Walk,
    ) -> Result<CellBelPinEntry, Stop> {
        walk.begin(15);
        let at = At { o, kind: 15, scope };
        let cell_pin = at.name(ctx, walk, 0)?;
        let bel_pin = at.name(ctx, walk, 1)?;
        Ok(CellBelPinEntry { cell_pin, bel_pin })
    }
}

impl Take for CommonCellBelPinMaps {
    ghost use Rattle.ix_message.specs.Device.{common_cell_bel_pin_maps};
    ghost use Rattle.ix_device_read.specs.Records.{common_cell_bel_pin_maps_record};
    ghost use Rattle.ix_device_read.specs.Named.{CommonCellBelPinMapsNamed};

    ghost shape = { common_cell_bel_pin_maps };

    ghost record_by = { common_cell_bel_pin_maps_record };

    ghost named = { CommonCellBelPinMapsNamed };

    #[tactic(auto, unfolding(ix_schema::specs::Said::said, ix_message::specs::Reading::row_at, crate::specs::Finish::finish_at, crate::specs::Finish::finish_row, crate::specs::Views::kind_word, crate::specs::Views::field_word))]
    fn take(
        o: Obj<'_>,
        ctx: &Context<'_>,
        scope: Scope,
        walk: &mut Walk,
    ) -> Result<CommonCellBelPinMaps, Stop> {
        walk.begin(16);
        let at = At { o, kind: 16, scope };
        let inner = Scope {
            bel_pins: scope.bel_pins,
            tile_wires: scope.tile_wires,
            tile_type: 0,
        };
        let site_types = at.list(ctx, 0, inner, walk)?;
        let pins = at.list(ctx, 1, inner, walk)?;
        Ok(CommonCellBelPinMaps { site_types, pins })
    }
}

impl Take for CellBelMapping {
    ghost use Rattle.ix_message.specs.Device.{cell_bel_mapping};
    ghost use Rattle.ix_device_read.specs.Records.{cell_bel_mapping_record};
    ghost use Rattle.ix_device_read.specs.Named.{CellBelMappingNamed};

    ghost shape = { cell_bel_mapping };

    ghost record_by = { cell_bel_mapping_record };

    ghost named = { CellBelMappingNamed };

    #[tactic(auto, unfolding(ix_schema::specs::Said::said, ix_message::specs::Reading::row_at, crate::specs::Finish::finish_at, crate::specs::Finish::finish_row, crate::specs::Views::kind_word, crate::specs::Views::field_word))]
    fn take(
        o: Obj<'_>,
        ctx: &Context<'_>,
        scope: Scope,
        walk: &mut Walk,
    ) -> Result<CellBelMapping, Stop> {
        walk.begin(17);
        let at = At { o, kind: 17, scope };
        let cell = at.name(ctx, walk, 0)?;
        let inner = Scope {
            bel_pins: scope.bel_pins,
            tile_wires: scope.tile_wires,
            tile_type: 0,
        };
        let common_pins = at.list(ctx, 0, inner, walk)?;
        Ok(CellBelMapping { cell, common_pins })
    }
}
