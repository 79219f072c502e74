//! The run of a job.

ghost use Rattle.std.specs.Prelude.{◌≡◌, ◌≤◌, ◌<◌, Some, length, map, slice_get, vec_len, IfOk};
ghost use Rattle.ix_shelf.specs.Shelf.{NoneFalls};
ghost use Rattle.ix_job.specs.Outside.{outside, is_done as is_done_seen, Tells};
ghost use Rattle.ix_job.specs.Job.{RunsJob, CompletesJob, job_of};
ghost use Rattle.ix_job.specs.Views.{content_seen};
ghost use Rattle.ix_job.specs.Steps.{IsMadeOf, TellsEither, Finishes};

use crate::inputs::{Unread, read_inputs};
use crate::lines::{Line, unread_line, unwritten_lines, with_line};
use crate::outputs::write_outputs;
use crate::work::{Content, Outcome, Work};
use ix_num::Memory;
use ix_rec::{Bytes, Items};
use ix_report::{OUT_OF_MEMORY_LINE, Report};
use ix_shelf::{Failed, Shelf, Sink, say};
use std::alloc::Global;

// Whether a report is an answer only where its whole line was put.
fn is_done(report: &Report) -> bool
    ensures { result ≡ is_done_seen report.now }
{
    match report {
        Report::Packed { .. }
        | Report::Placed { .. }
        | Report::Routed { .. }
        | Report::Implemented { .. }
        | Report::Yes { .. }
        | Report::No { .. }
        | Report::Demo { .. } => true,
        _ => false,
    }
}

// Prints the line of a report. It takes no memory.
fn tell<O: Sink>(out: &mut O, line: Line) -> Result<Report, Failed>
    ensures told { Tells line.report (O.told out.old) (O.told out.new) (O.faults out.old)
        (O.faults out.new) result }
    ensures faults { O.faults out.old ≤ O.faults out.new }
{
    match say(out, line.text.as_slice()) {
        Ok(()) => Ok(line.report),
        Err(failed) => {
            if is_done(&line.report) {
                Err(failed)
            } else {
                Ok(line.report)
            }
        }
    }
}

/// What has to be written and told once the inputs were read and worked on. All memory that it
/// takes has been found.
#[derive(Drop)]
struct Ready {
    outputs: Items<Bytes>,
    done: Line,
    faults: Vec<Line>,
}

// Makes the lines of an outcome, and of the faults that may come while its outputs are written.
fn with_lines(alloc: Global, names: &[&str], outcome: Outcome) -> Result<Ready, Memory>
    ensures outputs { IfOk result (λ r. r.outputs ≡ outcome.outputs) }
    ensures report { IfOk result (λ r. r.done.report ≡ outcome.report) }
    ensures faults { IfOk result (λ r. map (λ l. l.report) r.faults.items
        ≡ map (λ name. Report.WriteFault name) (map (λ name. name.now) names.now)) }
{
    let Outcome { report, outputs } = outcome;
    Ok(Ready {
        outputs,
        done: with_line(alloc, report)?,
        faults: unwritten_lines(alloc, names)?,
    })
}

// Asks the work, and makes all that is to be written and told.
fn prepare<W: Work>(
    alloc: Global,
    work: &W,
    contents: &Items<Content>,
    outputs: &[&str],
) -> Result<Ready, Memory>
    requires { length contents.now ≡ W.inputs_count work.now }
    ensures { IfOk result (IsMadeOf (W.is_outcome work.now) (map content_seen contents.now)
        (W.outputs_count work.now) (map (λ name. name.now) outputs.now)) }
{
    let outcome = work.outcome(alloc, contents)?;
    with_lines(alloc, outputs, outcome)
}

// Tells that memory is wanting.
fn starve<O: Sink>(out: &mut O) -> Result<Report, Failed>
    ensures told { Tells Report.OutOfMemory (O.told out.old) (O.told out.new) (O.faults out.old)
        (O.faults out.new) result }
    ensures faults { O.faults out.old ≤ O.faults out.new }
{
    let _ = say(out, OUT_OF_MEMORY_LINE);
    Ok(Report::OutOfMemory)
}

// Tells that the input of this name wasn't read, or that memory is wanting for that.
fn tell_unread<O: Sink>(alloc: Global, name: &str, out: &mut O) -> Result<Report, Failed>
    ensures told { TellsEither (Report.ReadFault name.now) Report.OutOfMemory (O.told out.old)
        (O.told out.new) (O.faults out.old) (O.faults out.new) result }
    ensures faults { O.faults out.old ≤ O.faults out.new }
{
    match unread_line(alloc, name) {
        Ok(line) => tell(out, line),
        Err(_) => starve(out),
    }
}

// Takes the line at this place out of a list.
fn line_at(mut lines: Vec<Line>, place: usize) -> Line
    requires { place < vec_len lines }
    ensures { slice_get (map (λ l. l.report) lines.items) place ≡ Some result.report }
{
    lines.swap_remove(place)
}

// Writes the outputs and tells of it. No memory is taken from here on.
fn finish<S: Shelf, O: Sink>(
    ready: Ready,
    outputs: &[&str],
    shelf: &mut S,
    out: &mut O,
) -> Result<Report, Failed>
    requires { map (λ l. l.report) ready.faults.items
        ≡ map (λ name. Report.WriteFault name) (map (λ name. name.now) outputs.now) }
    ensures finished { Finishes ready (map (λ name. name.now) outputs.now)
        (outside S.files S.read_faults S.write_faults O.told O.faults shelf.old out.old)
        (outside S.files S.read_faults S.write_faults O.told O.faults shelf.new out.new) result }
    ensures read_faults { S.read_faults shelf.new ≡ S.read_faults shelf.old }
    ensures write_faults { NoneFalls (S.write_faults shelf.old) (S.write_faults shelf.new) }
    ensures put_faults { O.faults out.old ≤ O.faults out.new }
{
    let Ready {
        outputs: bytes,
        done,
        faults,
    } = ready;
    match write_outputs(shelf, outputs, &bytes) {
        Ok(()) => tell(out, done),
        Err(unwritten) => tell(out, line_at(faults, unwritten.place)),
    }
}

/// Runs a job: reads the inputs to their end, in order; asks the work what they come to; writes the
/// outputs, one after another; and prints the line of the report. How it may end is said by
/// `IsEnding`.
///
/// All memory is taken before the first output is begun, and not after.
///
/// # Errors
///
/// `Failed`, where a done job's line wasn't wholly put.
pub fn run_job<W: Work, S: Shelf, O: Sink>(
    alloc: Global,
    work: &W,
    inputs: &[&str],
    outputs: &[&str],
    shelf: &mut S,
    out: &mut O,
) -> Result<Report, Failed>
    requires inputs { length inputs.now ≡ W.inputs_count work.now }
    requires outputs { length outputs.now ≡ W.outputs_count work.now }
    ensures run { RunsJob (W.is_outcome work.now)
        (job_of (map (λ name. name.now) inputs.now) (map (λ name. name.now) outputs.now))
        (outside S.files S.read_faults S.write_faults O.told O.faults shelf.old out.old)
        (outside S.files S.read_faults S.write_faults O.told O.faults shelf.new out.new) result }

    // It follows that where nothing fails it is told what the inputs come to.
    ensures complete { CompletesJob (W.is_outcome work.now)
        (job_of (map (λ name. name.now) inputs.now) (map (λ name. name.now) outputs.now))
        (outside S.files S.read_faults S.write_faults O.told O.faults shelf.old out.old)
        (outside S.files S.read_faults S.write_faults O.told O.faults shelf.new out.new) result }
{
    let contents = match read_inputs(alloc, shelf, inputs) {
        Ok(contents) => contents,
        Err(Unread::Fault(place)) => return tell_unread(alloc, inputs[place], out),
        Err(Unread::Memory) => return starve(out),
    };
    match prepare(alloc, work, &contents, outputs) {
        Ok(ready) => finish(ready, outputs, shelf, out),
        Err(_) => starve(out),
    }
}
