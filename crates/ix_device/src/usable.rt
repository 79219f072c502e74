//! Which LUT elements of a site type are usable.

ghost use Rattle.std.specs.Prelude.{◌≡◌, nat_eq, IfOk, OnOk};
ghost use Rattle.std.specs.List.{list_any};
ghost use Rattle.ix_device.specs.Elements.{is_usable as is_usable_in};
ghost use Rattle.ix_device.specs.Pins.{ArePins, AreOwnLines, line_in};
ghost use Rattle.ix_device.specs.Shapes.{with_line, with_lines};

use crate::lines::MOST_LINES;
use ix_first::{FirstById, FirstByKey};
use ix_keys::Key;
use ix_num::{BelPinId, Memory, NameId, SiteWireId};
use ix_rec::{Items, LutBel, LutElement, SiteType};
use std::alloc::Global;

/// A usable element has no more BELs.
pub(crate) const MOST_BELS: usize = 8;

/// A site type, with the tables of its BEL pins.
#[derive(Clone, Copy)]
pub(crate) struct Pins<'a> {
    /// The site type.
    pub ty: &'a SiteType,
    /// The BEL pins by the names of their BELs and their own.
    pub numbers: &'a FirstByKey<BelPinId>,
    /// The site wire of each BEL pin.
    pub wires: &'a FirstById<SiteWireId>,
}

/// The site wire of a BEL's pin; none where there is no such pin, or it is on none.
pub(crate) fn line_of(pins: &Pins<'_>, bel: NameId, pin: NameId) -> Option<SiteWireId>
    requires { ArePins pins.now }
    ensures { result ≡ line_in bel pin pins.now.ty.now }
{
    match pins.numbers.get(Key::new(0, bel.get(), pin.get())) {
        None => None,
        Some(number) => pins.wires.get(number.get() as usize),
    }
}

// Whether a line is one of these.
fn has_line(lines: &Items<SiteWireId>, line: SiteWireId) -> bool
    ensures { result ≡ list_any (nat_eq line) lines.now }
{
    lines.as_slice().iter().any(|l| line == *l)
}

// The lines of a LUT BEL's inputs, where each is on a line of its own and they aren't more than an
// element may have.
fn own_lines(
    alloc: Global,
    pins: &Pins<'_>,
    bel: &LutBel,
) -> Result<Option<Items<SiteWireId>>, Memory>
    requires { ArePins pins.now }
    ensures { IfOk result (AreOwnLines pins.now.ty.now bel.now) }
{
    let mut lines = Items::new(alloc);
    for i in 0..bel.input_pins.len() {
        match line_of(pins, bel.name, *bel.input_pins.at(i)) {
            None => return Ok(None),
            Some(line) => {
                if has_line(&lines, line) {
                    return Ok(None);
                }
                if lines.len() >= MOST_LINES {
                    return Ok(None);
                }
                lines.push(line)?;
            }
        }
    }
    Ok(Some(lines))
}

// Adds a line where it is new.
fn add_line(all: &mut Items<SiteWireId>, line: SiteWireId) -> Result<(), Memory>
    ensures { OnOk result (all.new ≡ with_line all.old line) }
{
    if !has_line(all, line) {
        all.push(line)?;
    }
    Ok(())
}

// Adds those of some lines that are new.
fn add_lines(all: &mut Items<SiteWireId>, lines: &Items<SiteWireId>) -> Result<(), Memory>
    ensures { OnOk result (all.new ≡ with_lines all.old lines.now) }
{
    for i in 0..lines.len() {
        add_line(all, *lines.at(i))?;
    }
    Ok(())
}

/// Whether an element is usable: it has few BELs and few lines, and each BEL has lines of its own
/// for its inputs. No more is read of it than what decides this.
pub(crate) fn is_usable(
    alloc: Global,
    pins: &Pins<'_>,
    element: &LutElement,
) -> Result<bool, Memory>
    requires { ArePins pins.now }
    ensures { IfOk result (λ usable. usable ≡ is_usable_in pins.now.ty.now element.now) }
{
    if element.bels.len() > MOST_BELS {
        return Ok(false);
    }
    let mut all = Items::new(alloc);
    for i in 0..element.bels.len() {
        match own_lines(alloc, pins, element.bels.at(i))? {
            None => return Ok(false),
            Some(lines) => add_lines(&mut all, &lines)?,
        }
        if all.len() > MOST_LINES {
            return Ok(false);
        }
    }
    Ok(true)
}
