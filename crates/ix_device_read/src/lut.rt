//! LUT cells and elements.

use crate::at::At;
use crate::context::{Context, Scope};
use crate::stop::Stop;
use crate::take::Take;
use crate::walk::Walk;
use ix_frame::Obj;
use ix_rec::{LutBel, LutCell, LutDefinitions, LutElement, SiteTypeLutElements};

impl Take for LutCell {
    ghost use Rattle.ix_message.specs.Device.{lut_cell};
    ghost use Rattle.ix_device_read.specs.Records.{lut_cell_record};
    ghost use Rattle.ix_device_read.specs.Named.{LutCellNamed};

    ghost shape = { lut_cell };

    ghost record_by = { lut_cell_record };

    ghost named = { LutCellNamed };

    #[tactic(auto, unfolding(ix_schema::specs::Said::said, ix_message::specs::Reading::row_at, crate::specs::Finish::finish_at, crate::specs::Finish::finish_row, crate::specs::Views::kind_word, crate::specs::Views::field_word))]
    fn take(o: Obj<'_>, ctx: &Context<'_>, scope: Scope, walk: &mut Walk) -> Result<LutCell, Stop> {
        walk.begin(23);
        let at = At { o, kind: 23, scope };
        let equation = at.choice(ctx, walk, 0)?;
        let cell = at.text(ctx, 0)?;
        let input_pins = at.texts(ctx, 1)?;
        let init_param = at.text(ctx, 2)?;
        Ok(LutCell {
            equation,
            cell,
            input_pins,
            init_param,
        })
    }
}

impl Take for LutBel {
    ghost use Rattle.ix_message.specs.Device.{lut_bel};
    ghost use Rattle.ix_device_read.specs.Records.{lut_bel_record};
    ghost use Rattle.ix_device_read.specs.Named.{LutBelNamed};

    ghost shape = { lut_bel };

    ghost record_by = { lut_bel_record };

    ghost named = { LutBelNamed };

    #[tactic(auto, unfolding(ix_schema::specs::Said::said, ix_message::specs::Reading::row_at, crate::specs::Finish::finish_at, crate::specs::Finish::finish_row, crate::specs::Views::kind_word, crate::specs::Views::field_word))]
    fn take(o: Obj<'_>, ctx: &Context<'_>, scope: Scope, walk: &mut Walk) -> Result<LutBel, Stop> {
        walk.begin(24);
        let at = At { o, kind: 24, scope };
        let low_bit = at.number(0);
        let high_bit = at.number(1);
        let name = at.text(ctx, 0)?;
        let input_pins = at.texts(ctx, 1)?;
        let output_pin = at.text(ctx, 2)?;
        Ok(LutBel {
            low_bit,
            high_bit,
            name,
            input_pins,
            output_pin,
        })
    }
}

impl Take for LutElement {
    ghost use Rattle.ix_message.specs.Device.{lut_element};
    ghost use Rattle.ix_device_read.specs.Records.{lut_element_record};
    ghost use Rattle.ix_device_read.specs.Named.{LutElementNamed};

    ghost shape = { lut_element };

    ghost record_by = { lut_element_record };

    ghost named = { LutElementNamed };

    #[tactic(auto, unfolding(ix_schema::specs::Said::said, ix_message::specs::Reading::row_at, crate::specs::Finish::finish_at, crate::specs::Finish::finish_row, crate::specs::Views::kind_word, crate::specs::Views::field_word))]
    fn take(
        o: Obj<'_>,
        ctx: &Context<'_>,
        scope: Scope,
        walk: &mut Walk,
    ) -> Result<LutElement, Stop> {
        walk.begin(25);
        let at = At { o, kind: 25, scope };
        let width = at.number(0);
        let inner = Scope {
            bel_pins: scope.bel_pins,
            tile_wires: scope.tile_wires,
            tile_type: 0,
        };
        let bels = at.list(ctx, 0, inner, walk)?;
        Ok(LutElement { width, bels })
    }
}

impl Take for SiteTypeLutElements {
    ghost use Rattle.ix_message.specs.Device.{site_type_lut_elements};
    ghost use Rattle.ix_device_read.specs.Records.{site_type_lut_elements_record};
    ghost use Rattle.ix_device_read.specs.Named.{SiteTypeLutElementsNamed};

    ghost shape = { site_type_lut_elements };

    ghost record_by = { site_type_lut_elements_record };

    ghost named = { SiteTypeLutElementsNamed };

    #[tactic(auto, unfolding(ix_schema::specs::Said::said, ix_message::specs::Reading::row_at, crate::specs::Finish::finish_at, crate::specs::Finish::finish_row, crate::specs::Views::kind_word, crate::specs::Views::field_word))]
    fn take(
        o: Obj<'_>,
        ctx: &Context<'_>,
        scope: Scope,
        walk: &mut Walk,
    ) -> Result<SiteTypeLutElements, Stop> {
        walk.begin(26);
        let at = At { o, kind: 26, scope };
        let inner = Scope {
            bel_pins: scope.bel_pins,
            tile_wires: scope.tile_wires,
            tile_type: 0,
        };
        let site = at.text(ctx, 0)?;
        let luts = at.list(ctx, 1, inner, walk)?;
        Ok(SiteTypeLutElements { site, luts })
    }
}

impl Take for LutDefinitions {
    ghost use Rattle.ix_message.specs.Device.{lut_definitions};
    ghost use Rattle.ix_device_read.specs.Records.{lut_definitions_record};
    ghost use Rattle.ix_device_read.specs.Named.{LutDefinitionsNamed};

    ghost shape = { lut_definitions };

    ghost record_by = { lut_definitions_record };

    ghost named = { LutDefinitionsNamed };

    #[tactic(auto, unfolding(ix_schema::specs::Said::said, ix_message::specs::Reading::row_at, crate::specs::Finish::finish_at, crate::specs::Finish::finish_row, crate::specs::Views::kind_word, crate::specs::Views::field_word))]
    fn take(
        o: Obj<'_>,
        ctx: &Context<'_>,
        scope: Scope,
        walk: &mut Walk,
    ) -> Result<LutDefinitions, Stop> {
        walk.begin(27);
        let at = At { o, kind: 27, scope };
        let inner = Scope {
            bel_pins: scope.bel_pins,
            tile_wires: scope.tile_wires,
            tile_type: 0,
        };
        let lut_cells = at.list(ctx, 0, inner, walk)?;
        let lut_elements = at.list(ctx, 1, inner, walk)?;
        Ok(LutDefinitions {
            lut_cells,
            lut_elements,
        })
    }
}
