//! The shapes of LUT elements.

use crate::asked::{Asked, type_named};
use ix_lut::{BelShape, ElementShape};
use std::alloc::AllocError;

/// Writes where a BEL reads, and the lines of its inputs.
fn put_bel(text: &mut String, bel: &BelShape) -> Result<(), AllocError> {
    let low = bel.low;
    write!(text, "; low {low} on")?;
    for line in bel.lines.iter().take(bel.inputs as usize) {
        write!(text, " {line}")?;
    }
    Ok(())
}

fn put_shape(text: &mut String, shape: &ElementShape) -> Result<(), AllocError> {
    let lines = shape.lines;
    write!(text, "{lines} lines")?;
    for bel in shape.bels.iter().take(shape.bel_count as usize) {
        put_bel(text, bel)?;
    }
    Ok(())
}

/// Writes how many elements a site type has, and the shape of one of them.
pub fn put_element(
    text: &mut String,
    asked: &Asked<'_>,
    ty: &str,
    element: &str,
) -> Result<(), AllocError> {
    let Some(t) = type_named(asked, ty) else {
        return text.push_str("no site type");
    };
    let Ok(element) = element.parse::<u32>() else {
        return text.push_str("no number");
    };
    let count = asked.device.elements(t);
    write!(text, "of {count}: ")?;
    match asked.device.shape(t, element) {
        Some(shape) => put_shape(text, &shape),
        None => text.push_str("none"),
    }
}
