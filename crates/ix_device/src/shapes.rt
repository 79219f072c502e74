//! The shapes of LUT elements.

ghost use Rattle.std.specs.Prelude.{◌≡◌, ◌≤◌, ℕ, List, ◌++◌, true, false, length, nat_eq};
ghost use Rattle.std.specs.Prelude.{option_map, take, IfSome, IfNone, ◌⊎◌, ◌<◌};
ghost use Rattle.std.specs.List.{list_any};
ghost use Rattle.ix_lut.specs.Shapes.{IsUsable, IsUsableBel};
ghost use Rattle.ix_device.specs.Elements.{has_own_lines, input_lines, present};
ghost use Rattle.ix_device.specs.Pins.{ArePins};
ghost use Rattle.ix_device.specs.Premises.{BelFits, BelsFit};
ghost use Rattle.ix_device.specs.Shapes.{with_lines, bel_with, bel_seen, shape_seen, usable_shape};

use crate::lines::{Lines, numbers_of_lines};
use crate::usable::{MOST_BELS, Pins, line_of};
use ix_lut::{BelShape, ElementShape};
use ix_rec::{LutBel, LutElement};

// Whether a site wire is one of these.
fn has_wire(wires: &[u32], wire: u32) -> bool
    ensures { result ≡ list_any (nat_eq wire) wires.now }
{
    wires.iter().any(|w| wire == *w)
}

// The site wires of a LUT BEL's inputs, by number; none where they aren't its own lines.
fn own_wires(pins: &Pins<'_>, bel: &LutBel) -> Option<[u32; 6]>
    requires pins { ArePins pins.now }
    requires few { length bel.now.input_pins ≤ 6 }
    ensures own { IfSome result (λ wires. has_own_lines pins.now.ty.now bel.now ≡ true) }
    ensures wires { IfSome result (λ wires.
        present (input_lines pins.now.ty.now bel.now) ≡ take (length bel.now.input_pins) wires) }
    ensures none { IfNone result (has_own_lines pins.now.ty.now bel.now ≡ false) }
{
    let mut wires = [0; 6];
    for j in 0..bel.input_pins.len() {
        match line_of(pins, bel.name, *bel.input_pins.at(j)) {
            None => return None,
            Some(line) => {
                if has_wire(&wires[..j], line.get()) {
                    return None;
                }
                wires[j] = line.get();
            }
        }
    }
    Some(wires)
}

// The shape of a LUT BEL, whose lines are added where they are new; none where they aren't its own,
// or an element may not have so many.
fn bel_shape(pins: &Pins<'_>, lines: &mut Lines, bel: &LutBel) -> Option<BelShape>
    requires pins { ArePins pins.now }
    requires fits { BelFits bel.now }
    ensures own { IfSome result (λ shape. has_own_lines pins.now.ty.now bel.now ≡ true) }
    ensures added { IfSome result (λ shape.
        lines.new ≡ with_lines lines.old (present (input_lines pins.now.ty.now bel.now))) }
    ensures seen { IfSome result (λ shape. (more : List ℕ) →
        bel_with pins.now.ty.now (lines.new ++ more) bel.now ≡ bel_seen shape) }
    ensures usable { IfSome result (IsUsableBel (length lines.new)) }
    ensures none { IfNone result ((has_own_lines pins.now.ty.now bel.now ≡ false)
        ⊎ (12 < length (with_lines lines.old (present (input_lines pins.now.ty.now bel.now))))) }
{
    match own_wires(pins, bel) {
        None => None,
        Some(wires) => {
            let inputs = bel.input_pins.len();
            match numbers_of_lines(lines, &wires[..inputs]) {
                None => None,
                Some(numbers) => Some(BelShape {
                    low: bel.low_bit,
                    inputs: inputs as u32,
                    lines: numbers,
                }),
            }
        }
    }
}

/// The shape of a LUT element; none exactly where the element isn't usable. No more is read of it
/// than what decides this.
pub(crate) fn shape_of(pins: &Pins<'_>, element: &LutElement) -> Option<ElementShape>
    requires pins { ArePins pins.now }
    requires fit { BelsFit element.now }
    ensures shape { option_map shape_seen result ≡ usable_shape pins.now.ty.now element.now }
    ensures usable { IfSome result IsUsable }
{
    let count = element.bels.len();
    if count > MOST_BELS {
        return None;
    }
    let mut lines = Lines::new();
    let mut bels = [BelShape {
        low: 0,
        inputs: 0,
        lines: [0; 6],
    }; 8];
    for i in 0..count {
        match bel_shape(pins, &mut lines, element.bels.at(i)) {
            None => return None,
            Some(bel) => bels[i] = bel,
        }
    }
    Some(ElementShape {
        lines: lines.len(),
        bel_count: count as u32,
        bels,
    })
}
