//! The texts of a device that aren't in its string table: those of LUT cells and elements.

use crate::intern::{HasTexts, add_structs_behind, add_text_behind, add_texts_behind};
use ix_frame::Obj;
use ix_num::Memory;
use ix_rec::{LutBel, LutCell, LutDefinitions, LutElement, SiteTypeLutElements};
use ix_strings::Names;

impl HasTexts for LutCell {
    ghost use Rattle.ix_message.specs.Device.{lut_cell};

    ghost form = { lut_cell };

    #[tactic(auto, unfolding(ix_schema::specs::Said::said, crate::specs::Loose::loose_texts))]
    fn add_texts(o: Obj<'_>, names: &mut Names) -> Result<(), Memory> {
        add_text_behind(o, 0, names)?;
        add_texts_behind(o, 1, names)?;
        add_text_behind(o, 2, names)?;
        Ok(())
    }
}

impl HasTexts for LutBel {
    ghost use Rattle.ix_message.specs.Device.{lut_bel};

    ghost form = { lut_bel };

    #[tactic(auto, unfolding(ix_schema::specs::Said::said, crate::specs::Loose::loose_texts))]
    fn add_texts(o: Obj<'_>, names: &mut Names) -> Result<(), Memory> {
        add_text_behind(o, 0, names)?;
        add_texts_behind(o, 1, names)?;
        add_text_behind(o, 2, names)?;
        Ok(())
    }
}

impl HasTexts for LutElement {
    ghost use Rattle.ix_message.specs.Device.{lut_element};

    ghost form = { lut_element };

    #[tactic(auto, unfolding(ix_schema::specs::Said::said, crate::specs::Loose::loose_texts))]
    fn add_texts(o: Obj<'_>, names: &mut Names) -> Result<(), Memory> {
        add_structs_behind::<LutBel>(o, 0, names)
    }
}

impl HasTexts for SiteTypeLutElements {
    ghost use Rattle.ix_message.specs.Device.{site_type_lut_elements};

    ghost form = { site_type_lut_elements };

    #[tactic(auto, unfolding(ix_schema::specs::Said::said, crate::specs::Loose::loose_texts))]
    fn add_texts(o: Obj<'_>, names: &mut Names) -> Result<(), Memory> {
        add_text_behind(o, 0, names)?;
        add_structs_behind::<LutElement>(o, 1, names)
    }
}

impl HasTexts for LutDefinitions {
    ghost use Rattle.ix_message.specs.Device.{lut_definitions};

    ghost form = { lut_definitions };

    #[tactic(auto, unfolding(ix_schema::specs::Said::said, crate::specs::Loose::loose_texts))]
    fn add_texts(o: Obj<'_>, names: &mut Names) -> Result<(), Memory> {
        add_structs_behind::<LutCell>(o, 0, names)?;
        add_structs_behind::<SiteTypeLutElements>(o, 1, names)
    }
}
