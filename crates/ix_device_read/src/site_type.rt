//! Site types.

use crate::at::At;
use crate::context::{Context, Scope};
use crate::inversion::inversion_of;
use crate::stop::Stop;
use crate::take::Take;
use crate::walk::Walk;
use ix_frame::Obj;
use ix_num::BelPinId;
use ix_rec::{Bel, BelPin, SitePin, SitePip, SiteType, SiteWire};

impl Take for BelPin {
    ghost use Rattle.ix_message.specs.Device.{bel_pin};
    ghost use Rattle.ix_device_read.specs.Records.{bel_pin_record};
    ghost use Rattle.ix_device_read.specs.Named.{BelPinNamed};

    ghost shape = { bel_pin };

    ghost record_by = { bel_pin_record };

    ghost named = { BelPinNamed };

    #[tactic(auto, unfolding(ix_schema::specs::Said::said, ix_message::specs::Reading::row_at, crate::specs::Finish::finish_at, crate::specs::Finish::finish_row, crate::specs::Views::kind_word, crate::specs::Views::field_word))]
    fn take(o: Obj<'_>, ctx: &Context<'_>, scope: Scope, walk: &mut Walk) -> Result<BelPin, Stop> {
        walk.begin(0);
        let at = At { o, kind: 0, scope };
        let name = at.name(ctx, walk, 0)?;
        let dir = at.choice(ctx, walk, 1)?;
        let bel = at.name(ctx, walk, 2)?;
        Ok(BelPin { name, dir, bel })
    }
}

impl Take for SitePin {
    ghost use Rattle.ix_message.specs.Device.{site_pin};
    ghost use Rattle.ix_device_read.specs.Records.{site_pin_record};
    ghost use Rattle.ix_device_read.specs.Named.{SitePinNamed};

    ghost shape = { site_pin };

    ghost record_by = { site_pin_record };

    ghost named = { SitePinNamed };

    #[tactic(auto, unfolding(ix_schema::specs::Said::said, ix_message::specs::Reading::row_at, crate::specs::Finish::finish_at, crate::specs::Finish::finish_row, crate::specs::Views::kind_word, crate::specs::Views::field_word))]
    fn take(o: Obj<'_>, ctx: &Context<'_>, scope: Scope, walk: &mut Walk) -> Result<SitePin, Stop> {
        walk.begin(1);
        let at = At { o, kind: 1, scope };
        let name = at.name(ctx, walk, 0)?;
        let dir = at.choice(ctx, walk, 1)?;
        let belpin = at.index(walk, 2, scope.bel_pins)?;
        Ok(SitePin {
            name,
            dir,
            belpin: BelPinId::new(belpin),
        })
    }
}

impl Take for SitePip {
    ghost use Rattle.ix_message.specs.Device.{site_pip};
    ghost use Rattle.ix_device_read.specs.Records.{site_pip_record};
    ghost use Rattle.ix_device_read.specs.Named.{NoNames};

    ghost shape = { site_pip };

    ghost record_by = { site_pip_record };

    ghost named = { NoNames };

    #[tactic(auto, unfolding(ix_schema::specs::Said::said, ix_message::specs::Reading::row_at, crate::specs::Finish::finish_at, crate::specs::Finish::finish_row, crate::specs::Views::kind_word, crate::specs::Views::field_word))]
    fn take(o: Obj<'_>, ctx: &Context<'_>, scope: Scope, walk: &mut Walk) -> Result<SitePip, Stop> {
        walk.begin(3);
        let at = At { o, kind: 3, scope };
        let inpin = at.index(walk, 0, scope.bel_pins)?;
        let outpin = at.index(walk, 1, scope.bel_pins)?;
        Ok(SitePip {
            inpin: BelPinId::new(inpin),
            outpin: BelPinId::new(outpin),
        })
    }
}

impl Take for Bel {
    ghost use Rattle.ix_message.specs.Device.{bel};
    ghost use Rattle.ix_device_read.specs.Records.{bel_record};
    ghost use Rattle.ix_device_read.specs.Named.{BelNamed};

    ghost shape = { bel };

    ghost record_by = { bel_record };

    ghost named = { BelNamed };

    #[tactic(auto, unfolding(ix_schema::specs::Said::said, ix_message::specs::Reading::row_at, crate::specs::Finish::finish_at, crate::specs::Finish::finish_row, crate::specs::Views::kind_word, crate::specs::Views::field_word))]
    fn take(o: Obj<'_>, ctx: &Context<'_>, scope: Scope, walk: &mut Walk) -> Result<Bel, Stop> {
        walk.begin(2);
        let at = At { o, kind: 2, scope };
        let name = at.name(ctx, walk, 0)?;
        let category = at.choice(ctx, walk, 1)?;
        let inversion = inversion_of(o, ctx, scope, walk)?;
        Ok(Bel {
            name,
            category,
            inversion,
        })
    }
}

impl Take for SiteWire {
    ghost use Rattle.ix_message.specs.Device.{site_wire};
    ghost use Rattle.ix_device_read.specs.Records.{site_wire_record};
    ghost use Rattle.ix_device_read.specs.Named.{SiteWireNamed};

    ghost shape = { site_wire };

    ghost record_by = { site_wire_record };

    ghost named = { SiteWireNamed };

    #[tactic(auto, unfolding(ix_schema::specs::Said::said, ix_message::specs::Reading::row_at, crate::specs::Finish::finish_at, crate::specs::Finish::finish_row, crate::specs::Views::kind_word, crate::specs::Views::field_word))]
    fn take(
        o: Obj<'_>,
        ctx: &Context<'_>,
        scope: Scope,
        walk: &mut Walk,
    ) -> Result<SiteWire, Stop> {
        walk.begin(4);
        let at = At { o, kind: 4, scope };
        let name = at.name(ctx, walk, 0)?;
        let pins = at.bel_pins(ctx, walk, 0, 1)?;
        Ok(SiteWire { name, pins })
    }
}

impl Take for SiteType {
    ghost use Rattle.ix_message.specs.Device.{site_type};
    ghost use Rattle.ix_device_read.specs.Records.{site_type_record};
    ghost use Rattle.ix_device_read.specs.Named.{SiteTypeNamed};

    ghost shape = { site_type };

    ghost record_by = { site_type_record };

    ghost named = { SiteTypeNamed };

    #[tactic(auto, unfolding(ix_schema::specs::Said::said, ix_message::specs::Reading::row_at, crate::specs::Finish::finish_at, crate::specs::Finish::finish_row, crate::specs::Views::kind_word, crate::specs::Views::field_word))]
    fn take(
        o: Obj<'_>,
        ctx: &Context<'_>,
        scope: Scope,
        walk: &mut Walk,
    ) -> Result<SiteType, Stop> {
        walk.begin(5);
        let at = At { o, kind: 5, scope };
        let name = at.name(ctx, walk, 0)?;
        let inner = Scope {
            bel_pins: at.count::<BelPin>(0),
            tile_wires: scope.tile_wires,
            tile_type: 0,
        };
        let bel_pins = at.list(ctx, 0, inner, walk)?;
        let pins = at.list(ctx, 1, inner, walk)?;
        let bels = at.list(ctx, 2, inner, walk)?;
        let site_pips = at.list(ctx, 3, inner, walk)?;
        let site_wires = at.list(ctx, 4, inner, walk)?;
        Ok(SiteType {
            name,
            bel_pins,
            pins,
            bels,
            site_pips,
            site_wires,
        })
    }
}
