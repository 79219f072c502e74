//! Reports with their lines.

ghost use Rattle.std.specs.Prelude.{◌≡◌, map, IfOk};
ghost use Rattle.ix_report.specs.Lines.{line_of};

use ix_num::Memory;
use ix_rec::Word;
use ix_report::{Report, line};
use std::alloc::Global;

/// A report with its line.
#[derive(Drop)]
pub(crate) struct Line {
    pub(crate) report: Report,
    pub(crate) text: Vec<u8>,
    ghost is_line: { text.items ≡ line_of report },
}

/// The report with its line.
pub(crate) fn with_line(alloc: Global, report: Report) -> Result<Line, Memory>
    ensures { IfOk result (λ l. l.report ≡ report) }
{
    let text = line(alloc, &report)?;
    Ok(Line { report, text })
}

/// The line of a fault at reading the file of this name.
pub(crate) fn unread_line(alloc: Global, name: &str) -> Result<Line, Memory>
    ensures { IfOk result (λ l. l.report ≡ Report.ReadFault name.now) }
{
    let file = Word::new(alloc, name)?;
    with_line(alloc, Report::ReadFault { file })
}

// The line of a fault at writing the file of this name.
fn unwritten_line(alloc: Global, name: &str) -> Result<Line, Memory>
    ensures { IfOk result (λ l. l.report ≡ Report.WriteFault name.now) }
{
    let file = Word::new(alloc, name)?;
    with_line(alloc, Report::WriteFault { file })
}

/// The lines of faults at writing the files of these names, in order.
pub(crate) fn unwritten_lines(alloc: Global, names: &[&str]) -> Result<Vec<Line>, Memory>
    ensures { IfOk result (λ lines. map (λ l. l.report) lines.items
        ≡ map (λ name. Report.WriteFault name) (map (λ name. name.now) names.now)) }
{
    let mut lines = Vec::new(alloc);
    for i in 0..names.len() {
        lines.push(unwritten_line(alloc, names[i])?)?;
    }
    Ok(lines)
}
