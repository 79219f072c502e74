//! What holds the lines of a LUT's BEL.

ghost use Rattle.std.specs.Prelude.{◌≡◌, ◌<◌, Some, length};
ghost use Rattle.ix_num.specs.declared.resource.Res.TheVariants.{Wire};
ghost use Rattle.ix_device.specs.Lookups.{type_of_site};
ghost use Rattle.ix_lut.specs.Shapes.{IsUsableBel, input_lines};
ghost use Rattle.ix_legal.specs.LutTables.{IsHeld};
ghost use Rattle.ix_ends.specs.Ends.{AreEnds, IsThere};
ghost use Rattle.ix_holders.specs.Holders.{AreHolders};
ghost use Rattle.ix_placed_luts.specs.Tied.{HaveOneHolder, tie_of_type, IsTied, AreTied};

use ix_device::Device;
use ix_ends::Ends;
use ix_holders::Holders;
use ix_lut::{BelShape, Tie};
use ix_num::{BelId, NameId, SiteId, SiteTypeId, SiteWireId};
use ix_rec::{LutBel, NetType, Phys};

/// A site of a device, and what tells which nets of a netlist hold its wires.
#[derive(Clone, Copy)]
pub(crate) struct HeldSite<'a> {
    /// The device.
    pub device: &'a Device,
    /// The netlist.
    pub phys: &'a Phys,
    /// The ends of its segments.
    pub ends: &'a Ends,
    /// The holders of its resources.
    pub holders: &'a Holders,
    /// The site.
    pub site: SiteId,
    /// Its type.
    pub ty: SiteTypeId,
}

// What a net of this type holds its wires at.
fn tie_of_net(ty: NetType) -> Tie
    ensures { result ≡ tie_of_type ty }
{
    match ty {
        NetType::Signal => Tie::Free,
        NetType::Gnd => Tie::Gnd,
        NetType::Vcc => Tie::Vcc,
    }
}

// What holds a wire of the site.
fn tie_of_wire(on: &HeldSite<'_>, wire: SiteWireId) -> Tie
    requires ends { AreEnds on.now.device.now on.now.phys.now on.now.ends.now }
    requires holders { AreHolders on.now.device.now on.now.phys.now on.now.ends.now
        on.now.holders.now }
    requires one_holder { HaveOneHolder on.now.device.now on.now.phys.now.nets }
    requires there { IsThere on.now.device.now (Wire on.now.site wire) }
    ensures { IsHeld on.now.device.now on.now.phys.now.nets (Wire on.now.site wire) result }
{
    match on.ends.wire(on.site, wire) {
        None => Tie::Free,
        Some(number) => match on.holders.first(number) {
            None => Tie::Free,
            Some(net) => tie_of_net(on.phys.nets.at(net as usize).ty),
        },
    }
}

// What holds the pin of this name of a BEL. A pin that is on no wire is held by nothing.
fn tie_of_pin(on: &HeldSite<'_>, bel: BelId, name: NameId) -> Tie
    requires ends { AreEnds on.now.device.now on.now.phys.now on.now.ends.now }
    requires holders { AreHolders on.now.device.now on.now.phys.now on.now.ends.now
        on.now.holders.now }
    requires one_holder { HaveOneHolder on.now.device.now on.now.phys.now.nets }
    requires ty { type_of_site on.now.device.now on.now.site ≡ Some on.now.ty }
    requires inside { on.now.ty < length on.now.device.now.site_type_list }
    ensures { IsTied on.now.device.now on.now.phys.now.nets on.now.site on.now.ty bel name result }
{
    match on.device.bel_pin(on.ty, bel, name) {
        None => Tie::Free,
        Some(pin) => match on.device.wire_of(on.ty, pin) {
            None => Tie::Free,
            Some(wire) => tie_of_wire(on, wire),
        },
    }
}

/// What holds the lines of a BEL's inputs.
pub(crate) fn ties_of(
    on: &HeldSite<'_>,
    bel: BelId,
    lut_bel: &LutBel,
    shape: &BelShape,
) -> [Tie; 12]
    requires ends { AreEnds on.now.device.now on.now.phys.now on.now.ends.now }
    requires holders { AreHolders on.now.device.now on.now.phys.now on.now.ends.now
        on.now.holders.now }
    requires one_holder { HaveOneHolder on.now.device.now on.now.phys.now.nets }
    requires ty { type_of_site on.now.device.now on.now.site ≡ Some on.now.ty }
    requires inside { on.now.ty < length on.now.device.now.site_type_list }
    requires usable { IsUsableBel 12 shape.now }
    requires all { length lut_bel.now.input_pins ≡ length (input_lines shape.now) }
    ensures { AreTied on.now.device.now on.now.phys.now.nets on.now.site on.now.ty bel
        lut_bel.now.input_pins (input_lines shape.now) (length lut_bel.now.input_pins) result }
{
    let mut ties = [Tie::Free; 12];
    for j in 0..lut_bel.input_pins.len() {
        let line = shape.lines[j];
        ties[line as usize] = tie_of_pin(on, bel, *lut_bel.input_pins.at(j));
    }
    ties
}
