//! Plans as text.

use ix_lut::{ElementPlan, LutUse, Tie};
use std::alloc::AllocError;

// The lines of a cell's inputs, with commas.
fn put_lines(text: &mut String, lines: &[u32; 6], inputs: u32) -> Result<(), AllocError> {
    for i in 0..inputs.min(6) as usize {
        if i > 0 {
            text.push_str(",")?;
        }
        let line = lines[i];
        write!(text, "{line}")?;
    }
    Ok(())
}

// The lines of each cell's inputs.
fn put_choice(text: &mut String, plan: &ElementPlan, uses: &[LutUse]) -> Result<(), AllocError> {
    for (u, cell) in uses.iter().enumerate() {
        if u < 8 {
            text.push_str(" ")?;
            put_lines(text, &plan.choice[u], cell.table.inputs)?;
        }
    }
    Ok(())
}

// A letter for each line.
fn put_ties(text: &mut String, ties: &[Tie; 12]) -> Result<(), AllocError> {
    for tie in ties {
        text.push_str(match tie {
            Tie::Free => "-",
            Tie::Vcc => "1",
            Tie::Gnd => "0",
        })?;
    }
    Ok(())
}

/// The line of each cell's inputs, each line's tie, and the element's table.
pub(crate) fn put_plan(
    text: &mut String,
    plan: &ElementPlan,
    uses: &[LutUse],
) -> Result<(), AllocError> {
    text.push_str("lines")?;
    put_choice(text, plan, uses)?;
    text.push_str(", ties ")?;
    put_ties(text, &plan.ties)?;
    let bits = plan.bits;
    write!(text, ", table {bits:016x}")
}
