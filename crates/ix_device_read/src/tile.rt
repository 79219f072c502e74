//! Tiles, tile wires and nodes.

use crate::at::At;
use crate::context::{Context, Scope};
use crate::stop::Stop;
use crate::take::Take;
use crate::walk::Walk;
use ix_frame::Obj;
use ix_rec::{Node, Site, Tile, Wire};

impl Take for Site {
    ghost use Rattle.ix_message.specs.Device.{site};
    ghost use Rattle.ix_device_read.specs.Records.{site_record};
    ghost use Rattle.ix_device_read.specs.Named.{SiteNamed};

    ghost shape = { site };

    ghost record_by = { site_record };

    ghost named = { SiteNamed };

    #[tactic(auto, unfolding(ix_schema::specs::Said::said, ix_message::specs::Reading::row_at, crate::specs::Finish::finish_at, crate::specs::Finish::finish_row, crate::specs::Views::kind_word, crate::specs::Views::field_word))]
    fn take(o: Obj<'_>, ctx: &Context<'_>, scope: Scope, walk: &mut Walk) -> Result<Site, Stop> {
        walk.begin(10);
        let at = At { o, kind: 10, scope };
        let name = at.name(ctx, walk, 0)?;
        let ty = at.index(walk, 1, ctx.site_types_of_tile(scope))?;
        Ok(Site { name, ty })
    }
}

impl Take for Tile {
    ghost use Rattle.ix_message.specs.Device.{tile};
    ghost use Rattle.ix_device_read.specs.Records.{tile_record};
    ghost use Rattle.ix_device_read.specs.Named.{TileNamed};

    ghost shape = { tile };

    ghost record_by = { tile_record };

    ghost named = { TileNamed };

    #[tactic(auto, unfolding(ix_schema::specs::Said::said, ix_message::specs::Reading::row_at, crate::specs::Finish::finish_at, crate::specs::Finish::finish_row, crate::specs::Views::kind_word, crate::specs::Views::field_word))]
    fn take(o: Obj<'_>, ctx: &Context<'_>, scope: Scope, walk: &mut Walk) -> Result<Tile, Stop> {
        walk.begin(11);
        let at = At { o, kind: 11, scope };
        let name = at.name(ctx, walk, 0)?;
        let ty = at.index(walk, 1, ctx.tile_type_count())?;
        let inner = Scope {
            bel_pins: scope.bel_pins,
            tile_wires: scope.tile_wires,
            tile_type: ty,
        };
        let sites = at.list(ctx, 0, inner, walk)?;
        Ok(Tile {
            name,
            ty,
            row: at.number(2),
            col: at.number(3),
            sites,
        })
    }
}

impl Take for Wire {
    ghost use Rattle.ix_message.specs.Device.{wire};
    ghost use Rattle.ix_device_read.specs.Records.{wire_record};
    ghost use Rattle.ix_device_read.specs.Named.{WireNamed};

    ghost shape = { wire };

    ghost record_by = { wire_record };

    ghost named = { WireNamed };

    #[tactic(auto, unfolding(ix_schema::specs::Said::said, ix_message::specs::Reading::row_at, crate::specs::Finish::finish_at, crate::specs::Finish::finish_row, crate::specs::Views::kind_word, crate::specs::Views::field_word))]
    fn take(o: Obj<'_>, ctx: &Context<'_>, scope: Scope, walk: &mut Walk) -> Result<Wire, Stop> {
        walk.begin(12);
        let at = At { o, kind: 12, scope };
        let tile = at.name(ctx, walk, 0)?;
        let wire = at.name(ctx, walk, 1)?;
        Ok(Wire { tile, wire })
    }
}

impl Take for Node {
    ghost use Rattle.ix_message.specs.Device.{node};
    ghost use Rattle.ix_device_read.specs.Records.{node_record};
    ghost use Rattle.ix_device_read.specs.Named.{NoNames};

    ghost shape = { node };

    ghost record_by = { node_record };

    ghost named = { NoNames };

    #[tactic(auto, unfolding(ix_schema::specs::Said::said, ix_message::specs::Reading::row_at, crate::specs::Finish::finish_at, crate::specs::Finish::finish_row, crate::specs::Views::kind_word, crate::specs::Views::field_word))]
    fn take(o: Obj<'_>, ctx: &Context<'_>, scope: Scope, walk: &mut Walk) -> Result<Node, Stop> {
        walk.begin(13);
        let at = At { o, kind: 13, scope };
        let wires = at.indexes(ctx, walk, 0, 0, ctx.wires)?;
        Ok(Node { wires })
    }
}
