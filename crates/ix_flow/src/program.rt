//! The top call.

ghost use Rattle.std.specs.Prelude.{◌≡◌, ◌≤◌, ◌⊎◌, Some, map, string_bytes};
ghost use Rattle.ix_report.specs.Lines.{line_of};
ghost use Rattle.ix_job.specs.Outside.{outside, PutsLine};
ghost use Rattle.ix_flow.specs.Words.{asked_in, checking, flowing};
ghost use Rattle.ix_flow.specs.WordsView.{check_view, flow_view};
ghost use Rattle.ix_flow.specs.Run.{ended, IsRun, IsComplete};
ghost use Rattle.ix_flow.specs.Implements.{IsImplemented};

use crate::check_work::CheckWork;
use crate::status::{Status, status_of};
use crate::words::{CheckWords, FlowWords, Words, asked_words};
use crate::work::FlowWork;
use ix_fit_legal::fits_are_legal;
use ix_job::run_job;
use ix_report::{Report, USAGE_LINE};
use ix_shelf::{Failed, Shelf, Sink, say};
use std::alloc::Global;

// Prints a line. Where not all of it is put, nothing more can be told.
fn print<O: Sink>(out: &mut O, line: &[u8])
    ensures line { PutsLine line.now (O.told out.old) (O.told out.new) (O.faults out.old)
        (O.faults out.new) }
    ensures faults { O.faults out.old ≤ O.faults out.new }
{
    let _ = say(out, line);
}

// The status of what the run of a job answers.
fn ended(answered: Result<Report, Failed>) -> Status
    ensures { result ≡ ended answered }
{
    match answered {
        Ok(report) => status_of(report),
        Err(_) => Status::PutFault,
    }
}

fn run_flow<S: Shelf, O: Sink>(
    alloc: Global,
    flow: &FlowWords<'_>,
    shelf: &mut S,
    out: &mut O,
) -> Status
    ensures run { IsRun (Some (flowing (flow_view flow.now)))
        (outside S.files S.read_faults S.write_faults O.told O.faults shelf.old out.old)
        (outside S.files S.read_faults S.write_faults O.told O.faults shelf.new out.new) result }
    ensures complete { IsComplete (Some (flowing (flow_view flow.now)))
        (outside S.files S.read_faults S.write_faults O.told O.faults shelf.old out.old)
        (outside S.files S.read_faults S.write_faults O.told O.faults shelf.new out.new) result }
{
    let inputs = [flow.device, flow.design];
    let outputs = [flow.routed];
    ended(run_job(alloc, &FlowWork, &inputs, &outputs, shelf, out))
}

fn run_check<S: Shelf, O: Sink>(
    alloc: Global,
    check: &CheckWords<'_>,
    shelf: &mut S,
    out: &mut O,
) -> Status
    ensures run { IsRun (Some (checking (check_view check.now)))
        (outside S.files S.read_faults S.write_faults O.told O.faults shelf.old out.old)
        (outside S.files S.read_faults S.write_faults O.told O.faults shelf.new out.new) result }
    ensures complete { IsComplete (Some (checking (check_view check.now)))
        (outside S.files S.read_faults S.write_faults O.told O.faults shelf.old out.old)
        (outside S.files S.read_faults S.write_faults O.told O.faults shelf.new out.new) result }
{
    let work = CheckWork { level: check.level };
    let inputs = [check.device, check.design, check.physical];
    ended(run_job(alloc, &work, &inputs, &[], shelf, out))
}

/// Runs the program for the words that follow its name, over a shelf of files and a sink for the
/// line that it prints.
///
/// The words are those of `flow` with the names of a device, a design and a netlist, and no
/// options, or those of `check` with the names of a device, a design and a netlist, and `--placed`
/// or not; others are `Usage`. All inputs are read to their end, then judged, the device first and
/// then the design. `flow` writes the netlist then, which may have the name of an input; `check`
/// judges its netlist, and writes nothing. Then the line is printed. Each status, and what it
/// leaves, is said by `IsRun`: the files are as before but where the netlist was written, and each
/// fault has its cause outside.
///
/// Where the status of `flow` is `Done`, or `PutFault` as the line alone wasn't put, the file that
/// was written decodes to a netlist that breaks no rule of the device, and the cells that are
/// extracted from it are the design's. Where that of `check` is `Done`, the stated rules hold of
/// the netlist and the design that is extracted from it is the flattened one, its tables being
/// derived where it has none.
///
/// Memory is taken before the first file is created, and not after.
pub fn run<S: Shelf, O: Sink>(alloc: Global, words: &[String], shelf: &mut S, out: &mut O) -> Status
    ensures run { IsRun (asked_in (map string_bytes words.now))
        (outside S.files S.read_faults S.write_faults O.told O.faults shelf.old out.old)
        (outside S.files S.read_faults S.write_faults O.told O.faults shelf.new out.new) result }

    // It follows that where nothing fails the status is that of the answer to the inputs.
    ensures complete { IsComplete (asked_in (map string_bytes words.now))
        (outside S.files S.read_faults S.write_faults O.told O.faults shelf.old out.old)
        (outside S.files S.read_faults S.write_faults O.told O.faults shelf.new out.new) result }
    ensures implements { (result ≡ Status.Done) ⊎ (result ≡ Status.PutFault)
        → IsImplemented (asked_in (map string_bytes words.now))
        (outside S.files S.read_faults S.write_faults O.told O.faults shelf.old out.old)
        (outside S.files S.read_faults S.write_faults O.told O.faults shelf.new out.new) result }
{
    fits_are_legal();
    match asked_words(words) {
        Some(Words::Flow(flow)) => run_flow(alloc, &flow, shelf, out),
        Some(Words::Check(check)) => run_check(alloc, &check, shelf, out),
        None => {
            print(out, USAGE_LINE);
            Status::Usage
        }
    }
}
