//! Tile types.

use crate::at::At;
use crate::context::{Context, Scope};
use crate::stop::Stop;
use crate::take::Take;
use crate::walk::Walk;
use ix_frame::Obj;
use ix_num::SiteTypeId;
use ix_rec::{Pip, SiteTypeInTileType, TileType, WireConstantSources};

impl Take for SiteTypeInTileType {
    ghost use Rattle.ix_message.specs.Device.{site_type_in_tile_type};
    ghost use Rattle.ix_device_read.specs.Records.{site_type_in_tile_type_record};
    ghost use Rattle.ix_device_read.specs.Named.{SiteTypeInTileTypeNamed};

    ghost shape = { site_type_in_tile_type };

    ghost record_by = { site_type_in_tile_type_record };

    ghost named = { SiteTypeInTileTypeNamed };

    #[tactic(auto, unfolding(ix_schema::specs::Said::said, ix_message::specs::Reading::row_at, crate::specs::Finish::finish_at, crate::specs::Finish::finish_row, crate::specs::Views::kind_word, crate::specs::Views::field_word))]
    fn take(
        o: Obj<'_>,
        ctx: &Context<'_>,
        scope: Scope,
        walk: &mut Walk,
    ) -> Result<SiteTypeInTileType, Stop> {
        walk.begin(6);
        let at = At { o, kind: 6, scope };
        let primary_type = at.index(walk, 0, ctx.site_types)?;
        let primary_pins_to_tile_wires = at.names(ctx, walk, 0, 1)?;
        Ok(SiteTypeInTileType {
            primary_type: SiteTypeId::new(primary_type),
            primary_pins_to_tile_wires,
        })
    }
}

impl Take for Pip {
    ghost use Rattle.ix_message.specs.Device.{pip};
    ghost use Rattle.ix_device_read.specs.Records.{pip_record};
    ghost use Rattle.ix_device_read.specs.Named.{NoNames};

    ghost shape = { pip };

    ghost record_by = { pip_record };

    ghost named = { NoNames };

    #[tactic(auto, using(crate::proofs::Flags::flag_again), unfolding(ix_schema::specs::Said::said, ix_message::specs::Reading::row_at, crate::specs::Finish::finish_at, crate::specs::Finish::finish_row, crate::specs::Views::kind_word, crate::specs::Views::field_word))]
    fn take(o: Obj<'_>, ctx: &Context<'_>, scope: Scope, walk: &mut Walk) -> Result<Pip, Stop> {
        walk.begin(7);
        let at = At { o, kind: 7, scope };
        let wire0 = at.index(walk, 0, scope.tile_wires)?;
        let wire1 = at.index(walk, 1, scope.tile_wires)?;
        let directional = at.flag(2);
        let kind = at.choice(ctx, walk, 3)?;
        Ok(Pip {
            wire0,
            wire1,
            directional,
            kind,
        })
    }
}

impl Take for WireConstantSources {
    ghost use Rattle.ix_message.specs.Device.{wire_constant_sources};
    ghost use Rattle.ix_device_read.specs.Records.{wire_constant_sources_record};
    ghost use Rattle.ix_device_read.specs.Named.{NoNames};

    ghost shape = { wire_constant_sources };

    ghost record_by = { wire_constant_sources_record };

    ghost named = { NoNames };

    #[tactic(auto, unfolding(ix_schema::specs::Said::said, ix_message::specs::Reading::row_at, crate::specs::Finish::finish_at, crate::specs::Finish::finish_row, crate::specs::Views::kind_word, crate::specs::Views::field_word))]
    fn take(
        o: Obj<'_>,
        ctx: &Context<'_>,
        scope: Scope,
        walk: &mut Walk,
    ) -> Result<WireConstantSources, Stop> {
        walk.begin(8);
        let at = At { o, kind: 8, scope };
        let constant = at.choice(ctx, walk, 0)?;
        let wires = at.indexes(ctx, walk, 0, 1, scope.tile_wires)?;
        Ok(WireConstantSources { constant, wires })
    }
}

impl Take for TileType {
    ghost use Rattle.ix_message.specs.Device.{tile_type};
    ghost use Rattle.ix_device_read.specs.Records.{tile_type_record};
    ghost use Rattle.ix_device_read.specs.Named.{TileTypeNamed};

    ghost shape = { tile_type };

    ghost record_by = { tile_type_record };

    ghost named = { TileTypeNamed };

    #[tactic(auto, unfolding(ix_schema::specs::Said::said, ix_message::specs::Reading::row_at, crate::specs::Finish::finish_at, crate::specs::Finish::finish_row, crate::specs::Views::kind_word, crate::specs::Views::field_word))]
    fn take(
        o: Obj<'_>,
        ctx: &Context<'_>,
        scope: Scope,
        walk: &mut Walk,
    ) -> Result<TileType, Stop> {
        walk.begin(9);
        let at = At { o, kind: 9, scope };
        let name = at.name(ctx, walk, 0)?;
        let inner = Scope {
            bel_pins: scope.bel_pins,
            tile_wires: at.number_count(1),
            tile_type: 0,
        };
        let site_types = at.list(ctx, 0, inner, walk)?;
        let wires = at.names(ctx, walk, 1, 2)?;
        let pips = at.list(ctx, 2, inner, walk)?;
        let constants = at.list(ctx, 3, inner, walk)?;
        Ok(TileType {
            name,
            site_types,
            wires,
            pips,
            constants,
        })
    }
}
