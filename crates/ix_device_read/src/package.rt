//! Packages and constants.

use crate::at::At;
use crate::context::{Context, Scope};
use crate::package_pin_site::package_pin_site;
use crate::stop::Stop;
use crate::take::Take;
use crate::walk::Walk;
use ix_frame::Obj;
use ix_rec::{Constants, NodeConstantSource, Package, PackagePin, SiteConstantSource};

impl Take for PackagePin {
    ghost use Rattle.ix_message.specs.Device.{package_pin};
    ghost use Rattle.ix_device_read.specs.Records.{package_pin_record};
    ghost use Rattle.ix_device_read.specs.Named.{PackagePinNamed};

    ghost shape = { package_pin };

    ghost record_by = { package_pin_record };

    ghost named = { PackagePinNamed };

    #[tactic(auto, unfolding(ix_schema::specs::Said::said, ix_message::specs::Reading::row_at, crate::specs::Finish::finish_at, crate::specs::Finish::finish_row, crate::specs::Views::kind_word, crate::specs::Views::field_word))]
    fn take(
        o: Obj<'_>,
        ctx: &Context<'_>,
        scope: Scope,
        walk: &mut Walk,
    ) -> Result<PackagePin, Stop> {
        walk.begin(18);
        let at = At { o, kind: 18, scope };
        let package_pin = at.name(ctx, walk, 0)?;
        let site = package_pin_site(o, ctx, scope, walk)?;
        Ok(PackagePin { package_pin, site })
    }
}

impl Take for Package {
    ghost use Rattle.ix_message.specs.Device.{package_of_pins};
    ghost use Rattle.ix_device_read.specs.Records.{package_of_pins_record};
    ghost use Rattle.ix_device_read.specs.Named.{PackageNamed};

    ghost shape = { package_of_pins };

    ghost record_by = { package_of_pins_record };

    ghost named = { PackageNamed };

    #[tactic(auto, unfolding(ix_schema::specs::Said::said, ix_message::specs::Reading::row_at, crate::specs::Finish::finish_at, crate::specs::Finish::finish_row, crate::specs::Views::kind_word, crate::specs::Views::field_word))]
    fn take(o: Obj<'_>, ctx: &Context<'_>, scope: Scope, walk: &mut Walk) -> Result<Package, Stop> {
        walk.begin(19);
        let at = At { o, kind: 19, scope };
        let name = at.name(ctx, walk, 0)?;
        let inner = Scope {
            bel_pins: scope.bel_pins,
            tile_wires: scope.tile_wires,
            tile_type: 0,
        };
        let package_pins = at.list(ctx, 0, inner, walk)?;
        Ok(Package { name, package_pins })
    }
}

impl Take for SiteConstantSource {
    ghost use Rattle.ix_message.specs.Device.{site_constant_source};
    ghost use Rattle.ix_device_read.specs.Records.{site_constant_source_record};
    ghost use Rattle.ix_device_read.specs.Named.{SiteConstantSourceNamed};

    ghost shape = { site_constant_source };

    ghost record_by = { site_constant_source_record };

    ghost named = { SiteConstantSourceNamed };

    #[tactic(auto, unfolding(ix_schema::specs::Said::said, ix_message::specs::Reading::row_at, crate::specs::Finish::finish_at, crate::specs::Finish::finish_row, crate::specs::Views::kind_word, crate::specs::Views::field_word))]
    fn take(
        o: Obj<'_>,
        ctx: &Context<'_>,
        scope: Scope,
        walk: &mut Walk,
    ) -> Result<SiteConstantSource, Stop> {
        walk.begin(20);
        let at = At { o, kind: 20, scope };
        let site_type = at.name(ctx, walk, 0)?;
        let bel = at.name(ctx, walk, 1)?;
        let bel_pin = at.name(ctx, walk, 2)?;
        let constant = at.choice(ctx, walk, 3)?;
        Ok(SiteConstantSource {
            site_type,
            bel,
            bel_pin,
            constant,
        })
    }
}

impl Take for NodeConstantSource {
    ghost use Rattle.ix_message.specs.Device.{node_constant_source};
    ghost use Rattle.ix_device_read.specs.Records.{node_constant_source_record};
    ghost use Rattle.ix_device_read.specs.Named.{NodeConstantSourceNamed};

    ghost shape = { node_constant_source };

    ghost record_by = { node_constant_source_record };

    ghost named = { NodeConstantSourceNamed };

    #[tactic(auto, unfolding(ix_schema::specs::Said::said, ix_message::specs::Reading::row_at, crate::specs::Finish::finish_at, crate::specs::Finish::finish_row, crate::specs::Views::kind_word, crate::specs::Views::field_word))]
    fn take(
        o: Obj<'_>,
        ctx: &Context<'_>,
        scope: Scope,
        walk: &mut Walk,
    ) -> Result<NodeConstantSource, Stop> {
        walk.begin(21);
        let at = At { o, kind: 21, scope };
        let tile = at.name(ctx, walk, 0)?;
        let wire = at.name(ctx, walk, 1)?;
        let constant = at.choice(ctx, walk, 2)?;
        Ok(NodeConstantSource {
            tile,
            wire,
            constant,
        })
    }
}

impl Take for Constants {
    ghost use Rattle.ix_message.specs.Device.{constant_cells};
    ghost use Rattle.ix_device_read.specs.Records.{constant_cells_record};
    ghost use Rattle.ix_device_read.specs.Named.{ConstantsNamed};

    ghost shape = { constant_cells };

    ghost record_by = { constant_cells_record };

    ghost named = { ConstantsNamed };

    #[tactic(auto, unfolding(ix_schema::specs::Said::said, ix_message::specs::Reading::row_at, crate::specs::Finish::finish_at, crate::specs::Finish::finish_row, crate::specs::Views::kind_word, crate::specs::Views::field_word))]
    fn take(
        o: Obj<'_>,
        ctx: &Context<'_>,
        scope: Scope,
        walk: &mut Walk,
    ) -> Result<Constants, Stop> {
        walk.begin(22);
        let at = At { o, kind: 22, scope };
        let gnd_cell_type = at.name(ctx, walk, 0)?;
        let gnd_cell_pin = at.name(ctx, walk, 1)?;
        let vcc_cell_type = at.name(ctx, walk, 2)?;
        let vcc_cell_pin = at.name(ctx, walk, 3)?;
        let inner = Scope {
            bel_pins: scope.bel_pins,
            tile_wires: scope.tile_wires,
            tile_type: at.number(1),
        };
        let site_sources = at.list(ctx, 0, inner, walk)?;
        let node_sources = at.list(ctx, 1, inner, walk)?;
        Ok(Constants {
            gnd_cell_type,
            gnd_cell_pin,
            vcc_cell_type,
            vcc_cell_pin,
            site_sources,
            node_sources,
        })
    }
}
