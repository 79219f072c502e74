//! What holds the lines of the inputs that a LUT doesn't use.

ghost use Rattle.std.specs.Prelude.{◌≡◌, ◌<◌, length};
ghost use Rattle.ix_lut.specs.Shapes.{IsUsableBel, input_lines};
ghost use Rattle.ix_fill_tables.specs.Holdings.{AreHoldings};
ghost use Rattle.ix_fill_tables.specs.Ties.{TellsPin, TellsTies};

use crate::forcing::is_used;
use crate::netlist::Netlist;
use ix_lut::{BelShape, Tie};
use ix_num::{BelId, NameId, SiteId, SiteTypeId};
use ix_rec::LutBel;

// What holds the pin of this name of a BEL of a site; none exactly where both constants do. A pin
// that is on no wire is held by nothing.
fn tie_of_pin(
    on: &Netlist<'_>,
    site: SiteId,
    ty: SiteTypeId,
    bel: BelId,
    name: NameId,
) -> Option<Tie>
    requires holdings { AreHoldings on.now.device.now on.now.phys.now.nets
        on.now.constants.now.holdings }
    requires ty { ty < length on.now.device.now.site_type_list }
    ensures { TellsPin on.now.device.now on.now.phys.now.nets site ty bel name result }
{
    match on.device.bel_pin(ty, bel, name) {
        None => Some(Tie::Free),
        Some(pin) => match on.device.wire_of(ty, pin) {
            None => Some(Tie::Free),
            Some(wire) => on.constants.tie(site, wire),
        },
    }
}

/// What holds the lines of the inputs of a BEL that aren't at used places; none exactly where both
/// constants hold one of them.
pub(crate) fn ties_of(
    on: &Netlist<'_>,
    site: SiteId,
    ty: SiteTypeId,
    bel: BelId,
    lut_bel: &LutBel,
    shape: &BelShape,
    used: &[u32],
) -> Option<[Tie; 12]>
    requires holdings { AreHoldings on.now.device.now on.now.phys.now.nets
        on.now.constants.now.holdings }
    requires ty { ty < length on.now.device.now.site_type_list }
    requires usable { IsUsableBel 12 shape.now }
    requires all { length lut_bel.now.input_pins ≡ length (input_lines shape.now) }
    ensures { TellsTies on.now.device.now on.now.phys.now.nets site ty bel lut_bel.now.input_pins
        (input_lines shape.now) used.now result }
{
    let mut ties = [Tie::Free; 12];
    for j in 0..lut_bel.input_pins.len() {
        if !is_used(used, j as u32) {
            match tie_of_pin(on, site, ty, bel, *lut_bel.input_pins.at(j)) {
                None => return None,
                Some(tie) => ties[shape.lines[j] as usize] = tie,
            }
        }
    }
    Some(ties)
}
