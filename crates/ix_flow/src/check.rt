//! The answer of `check` to the bytes of a device, a design and a physical netlist.

ghost use Rattle.std.specs.Prelude.{◌≡◌, ◌≤◌, ◌<◌, ◌+◌, ◌-◌, ◌*◌, ◌^◌, length, [], IfOk};
ghost use Rattle.ix_device_read.specs.Named.{DeviceNamed};
ghost use Rattle.ix_flat.specs.Range.{IsInRange, IsNamed};
ghost use Rattle.ix_flat.specs.Whole.{IsWhole};
ghost use Rattle.ix_job.specs.Chain.{Meets};
ghost use Rattle.ix_job.specs.Views.{content_seen, outcome_seen};
ghost use Rattle.ix_legal.specs.Legal.{IsSound, most_entries};
ghost use Rattle.ix_logic_read.specs.Record.{IsNetlistNamed};
ghost use Rattle.ix_strings.specs.Names.{KeepsNumbers};
ghost use Rattle.ix_flow.specs.Answer.{NamedFlat};
ghost use Rattle.ix_flow.specs.CheckAnswer.{physical_in, judged, check_flat, check_design, check_on};
ghost use Rattle.ix_flow.specs.CheckAnswer.{check_answer};
ghost use Rattle.ix_flow.specs.Named.{named_device, named_design, named_flat, named_phys};

use crate::answer::{
    broken_reading, flat_design, open, opened_content, pinned, read_design, valid_device,
};
use ix_check::{Verdict, check_netlist};
use ix_device::Device;
use ix_job::{Content, Outcome, Stop};
use ix_legal::Level;
use ix_num::Memory;
use ix_phys_laws::{read_netlists_are_sound, read_netlists_have_room};
use ix_phys_read::read_phys;
use ix_read_laws::{devices_stay_named, flats_stay_named, read_netlists_fit};
use ix_rec::{File, Flat, Items, NetlistRec, Phys, Place, Rule};
use ix_report::Report;
use ix_strings::Names;
use std::alloc::Global;

// A netlist is refused for a rule.
fn refused(rule: Rule, place: Place) -> Stop
    ensures { result ≡ Stop.Refused (Report.No rule place) }
{
    Stop::Refused(Report::No { rule, place })
}

/// Reads a physical netlist, whose names are added to the names.
fn read_physical(alloc: Global, content: &Content, names: &mut Names) -> Result<Phys, Stop>
    requires room { length names.old + 2 ^ 28 + 66 < 2 ^ 32 - 1 }
    ensures read { (f : NamedFlat) → f.names ≡ names.old
        → Meets (named_phys names.new) (physical_in f (content_seen content.now)) result }
    ensures sound { IfOk result (IsSound names.new) }
    ensures few { IfOk result (λ phys. length phys.placements + length phys.properties
        ≤ most_entries) }
    ensures keeps { KeepsNumbers names.old names.new }
    ensures most { length names.new ≤ length names.old + 2 ^ 28 + 65 }
{
    read_netlists_are_sound();
    read_netlists_have_room();
    let frame = match opened_content(content) {
        Ok(frame) => frame,
        Err(rule) => return Err(refused(rule, Place::File)),
    };
    match read_phys(alloc, &frame, names) {
        Ok(phys) => {
            // That no two names are alike is what the table tells with their number.
            let _count = names.len();
            Ok(phys)
        }
        Err(fault) => match broken_reading(fault) {
            Some((rule, place)) => Err(refused(rule, place)),
            None => Err(Stop::Memory),
        },
    }
}

// A job without outputs.
fn without_outputs(alloc: Global, report: Report) -> Outcome
    ensures { outcome_seen result ≡ record { report = report; outputs = [] } }
{
    Outcome {
        report,
        outputs: Items::new(alloc),
    }
}

/// Judges a netlist.
fn judge(
    alloc: Global,
    device: &Device,
    flat: &Flat,
    phys: Phys,
    names: &mut Names,
    level: Level,
) -> Result<Outcome, Stop>
    requires device { DeviceNamed (length names.old) device.now }
    requires range { IsInRange device.now flat.now }
    requires named { IsNamed (length names.old) flat.now }
    requires whole { IsWhole names.old device.now flat.now }
    requires sound { IsSound names.old phys }
    requires few { length phys.placements + length phys.properties ≤ most_entries }
    requires room { length names.old + 2 * length phys.placements < 2 ^ 32 - 1 }
    ensures { Meets outcome_seen (judged level device.now flat.now (named_phys names.old phys))
        result }
{
    match check_netlist(alloc, device, flat, phys, names, level)? {
        Verdict::Yes { derived } => Ok(without_outputs(alloc, Report::Yes { derived })),
        Verdict::No { rule, place } => Err(refused(rule, place)),
    }
}

/// Reads and judges a netlist against a flat design.
fn check_flat(
    alloc: Global,
    device: &Device,
    flat: &Flat,
    physical: &Content,
    names: &mut Names,
    level: Level,
) -> Result<Outcome, Stop>
    requires device { DeviceNamed (length names.old) device.now }
    requires range { IsInRange device.now flat.now }
    requires named { IsNamed (length names.old) flat.now }
    requires whole { IsWhole names.old device.now flat.now }
    requires room { length names.old + 2 ^ 30 < 2 ^ 32 - 1 }
    ensures { (f : NamedFlat) → f.names ≡ names.old
        → Meets outcome_seen (check_flat level device.now f flat.now (content_seen physical.now))
        result }
{
    devices_stay_named();
    flats_stay_named();
    let phys = read_physical(alloc, physical, names)?;
    judge(alloc, device, flat, phys, names, level)
}

/// The same against a design.
fn check_design(
    alloc: Global,
    device: &Device,
    rec: &NetlistRec,
    physical: &Content,
    names: &mut Names,
    level: Level,
) -> Result<Outcome, Stop>
    requires design { IsNetlistNamed names.old rec.now }
    requires device { DeviceNamed (length names.old) device.now }
    requires few { length names.old + 2 ^ 29 + 2 ^ 30 < 2 ^ 32 - 1 }
    ensures { Meets outcome_seen (check_design level device.now (named_design names.old rec.now)
        (content_seen physical.now)) result }
{
    read_netlists_fit();
    devices_stay_named();
    let flat = flat_design(alloc, rec, device, names)?;
    let flat = pinned(alloc, rec, device, flat, names)?;
    check_flat(alloc, device, &flat, physical, names, level)
}

/// The same against the design of a file.
fn check_on(
    alloc: Global,
    device: &Device,
    design: &Content,
    physical: &Content,
    names: &mut Names,
    level: Level,
) -> Result<Outcome, Stop>
    requires room { length names.old ≤ 2 ^ 28 + 66 }
    requires named { DeviceNamed (length names.old) device.now }
    ensures { Meets outcome_seen (check_on level (named_device names.old device.now)
        (content_seen design.now) (content_seen physical.now)) result }
{
    devices_stay_named();
    let frame = open(File::Design, design)?;
    let rec = read_design(alloc, &frame, names)?;
    check_design(alloc, device, &rec, physical, names, level)
}

/// The answer to three files: the device is judged before the design, and then the netlist.
pub(crate) fn check_answer(
    alloc: Global,
    device: &Content,
    design: &Content,
    physical: &Content,
    level: Level,
) -> Result<Outcome, Stop>
    ensures { Meets outcome_seen (check_answer level (content_seen device.now)
        (content_seen design.now) (content_seen physical.now)) result }
{
    let frame = open(File::Device, device)?;
    let mut names = Names::new(alloc);
    let device = valid_device(alloc, &frame, &mut names)?;
    check_on(alloc, &device, design, physical, &mut names, level)
}
