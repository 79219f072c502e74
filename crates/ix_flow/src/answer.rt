//! The answer to the bytes of a device and a design.

ghost use Rattle.std.specs.Prelude.{◌≡◌, ◌+◌, ◌-◌, ◌^◌, ◌<◌, ◌≤◌, ℕ};
ghost use Rattle.std.specs.Prelude.{Ok, Err, Some, IfOk, IfSome};
ghost use Rattle.std.specs.Prelude.{[], ◌∷◌, List, length, slice_get};
ghost use Rattle.std.specs.Prelude.{◌&&◌, nat_eq};
ghost use Rattle.std.specs.FinMap.{len};
ghost use Rattle.std.specs.List.{AllByRecursion};
ghost use Rattle.ix_frame.specs.Result.{Finds};
ghost use Rattle.ix_frame.specs.Views.{segments_of};
ghost use Rattle.ix_frame.specs.Segments.{Segments};
ghost use Rattle.ix_message.specs.Device.{device};
ghost use Rattle.ix_device_read.specs.Reading.{reading_in_segments, Refuses};
ghost use Rattle.ix_device_read.specs.Named.{DeviceNamed};
ghost use Rattle.ix_device_read.specs.Records.{device_record};
ghost use Rattle.ix_rec.specs.Ranges.{IndexesFit};
ghost use Rattle.ix_phys_write.specs.Record.{IsPhysNamed};
ghost use Rattle.ix_flat.specs.Range.{IsInRange, IsNamed};
ghost use Rattle.ix_flat.specs.Whole.{IsWhole};
ghost use Rattle.ix_first_fit.specs.Named.{CellNamed};
ghost use Rattle.ix_first_fit.specs.Answers.{IsFitFault};
ghost use Rattle.ix_job.specs.Chain.{Meets};
ghost use Rattle.ix_job.specs.Views.{content_seen, outcome_seen};
ghost use Rattle.ix_strings.specs.Names.{KeepsNumbers};
ghost use Rattle.ix_message.specs.Shape.{Text};
ghost use Rattle.ix_logic_read.specs.Record.{IsNetlistNamed};
ghost use Rattle.ix_hierarchy.specs.Fits.{NetlistFits};
ghost use Rattle.ix_flow.specs.Answer.{rule_of, opened, opens, device_in, design_in, placed};
ghost use Rattle.ix_flow.specs.Answer.{NamedDevice, NamedDesign, IsFlatDesign, flattened, pinned};
ghost use Rattle.ix_flow.specs.Answer.{unconnected, cells_in, BreaksReading};
ghost use Rattle.ix_flow.specs.Answer.{written, netlist_for, answer_for, answer, implemented};
ghost use Rattle.ix_flow.specs.Named.{named_device, named_design, named_flat, named_cells};
ghost use Rattle.ix_flow.specs.Named.{IsFaultNamed, TellsUnread};
ghost use Rattle.ix_message.specs.Shape.{Struct};

use ix_belmap::{PinFault, fixed_pins};
use ix_capw::BuildFault;
use ix_device::{Device, DeviceFault};
use ix_device_read::read_device;
use ix_first::number_of;
use ix_first_fit::{FitFault, first_fit, fits_have_own_places};
use ix_flatten::{DesignFault, flatten};
use ix_frame::Frame;
use ix_job::{Content, Outcome, Stop};
use ix_logic_read::read_netlist;
use ix_num::{FrameRule, Memory, NameId};
use ix_phys_write::write_phys;
use ix_read_laws::{devices_stay_named, read_devices_fit, read_netlists_fit};
use ix_rec::{
    Bytes, DeviceRec, File, Flat, FlatCell, Items, NetlistRec, Phys, Place, ReadFault, Rule, Word,
};
use ix_report::Report;
use ix_shelf::MOST_BYTES;
use ix_strings::Names;
use std::alloc::Global;

fn rule_of(rule: FrameRule) -> Rule
    ensures { result ≡ rule_of rule }
{
    match rule {
        FrameRule::F1 => Rule::F1,
        FrameRule::F2 => Rule::F2,
        FrameRule::F3 => Rule::F3,
        FrameRule::F4 => Rule::F4,
        FrameRule::F5 => Rule::F5,
        FrameRule::F6 => Rule::F6,
        FrameRule::F7 => Rule::F7,
        FrameRule::F8 => Rule::F8,
    }
}

#[tactic(auto, unfolding(crate::specs::Answer::opened))]
fn opened(bytes: &[u8]) -> Result<Frame<'_>, Rule>
    ensures { Finds segments_of result (opened (Some bytes.now)) }
{
    if bytes.len() > MOST_BYTES {
        return Err(Rule::F9);
    }
    match Frame::open(bytes) {
        Ok(frame) => Ok(frame),
        Err(fault) => Err(rule_of(fault.rule)),
    }
}

#[tactic(auto, unfolding(crate::specs::Answer::opened))]
pub(crate) fn opened_content(content: &Content) -> Result<Frame<'_>, Rule>
    ensures { Finds segments_of result (opened (content_seen content.now)) }
{
    match content {
        Content::Bytes(bytes) => opened(bytes.as_slice()),
        Content::TooLarge => Err(Rule::F9),
    }
}

/// Opens a file, or refuses it for the rule that it breaks as a whole.
pub(crate) fn open(file: File, content: &Content) -> Result<Frame<'_>, Stop>
    ensures { Meets segments_of (opens file (content_seen content.now)) result }
{
    match opened_content(content) {
        Ok(frame) => Ok(frame),
        Err(rule) => Err(Stop::Refused(Report::Bad {
            file,
            rule,
            place: Place::File,
        })),
    }
}

fn broken(file: File, rule: Rule, place: Place) -> Stop
    ensures { result ≡ Stop.Refused (Report.Bad file rule place) }
{
    Stop::Refused(Report::Bad { file, rule, place })
}

/// The first rule that a file breaks as it is read: a rule of its frame, or the first index out of
/// its list. None where memory is wanting.
pub(crate) fn broken_reading(fault: ReadFault) -> Option<(Rule, Place)>
    ensures { (message : Struct) (all : Segments)
        → Refuses fault (reading_in_segments message all)
        → IfSome result (λ broken. BreaksReading message all broken.0 broken.1) }
{
    match fault {
        ReadFault::Frame(fault) => {
            let place = Place::At {
                segment: fault.segment,
                word: fault.word,
            };
            Some((rule_of(fault.rule), place))
        }
        ReadFault::Index(place) => Some((Rule::I1, place)),
        ReadFault::Memory => None,
    }
}

// A device or a design is refused for that rule.
fn reading_fault(file: File, fault: ReadFault) -> Stop
    ensures { (message : Struct) (all : Segments)
        → Refuses fault (reading_in_segments message all) → TellsUnread file message all result }
{
    match broken_reading(fault) {
        Some((rule, place)) => broken(file, rule, place),
        None => Stop::Memory,
    }
}

// Asks a device's rules.
fn check_device(alloc: Global, rec: DeviceRec, names: &Names) -> Result<Device, Stop>
    requires { IndexesFit rec }
    ensures { (all : Segments) → reading_in_segments device all ≡ Ok (device_record names.now rec)
        → DeviceNamed (length names.now) rec → Meets (named_device names.now) (device_in all)
        result }
{
    // That no two names are alike is what the table tells with their number.
    let _count = names.len();
    match Device::check(alloc, rec, names) {
        Ok(device) => Ok(device),
        Err(DeviceFault::Broken(rule, place)) => Err(broken(File::Device, rule, place)),
        Err(DeviceFault::Memory) => Err(Stop::Memory),
    }
}

/// Reads a device, whose names are added to the names, and asks its rules.
pub(crate) fn valid_device(
    alloc: Global,
    frame: &Frame<'_>,
    names: &mut Names,
) -> Result<Device, Stop>
    requires { names.old ≡ [] }
    ensures valid { Meets (named_device names.new) (device_in (segments_of frame.now)) result }
    ensures few { length names.new ≤ 2 ^ 28 + 66 }
{
    match read_device(alloc, frame, names) {
        Ok(rec) => check_device(alloc, rec, names),
        Err(fault) => Err(reading_fault(File::Device, fault)),
    }
}

/// Reads a design, whose names are added to the names.
pub(crate) fn read_design(
    alloc: Global,
    frame: &Frame<'_>,
    names: &mut Names,
) -> Result<NetlistRec, Stop>
    requires { length names.old + 2 ^ 28 + 66 < 2 ^ 32 - 1 }
    ensures read { (d : NamedDevice) → d.names ≡ names.old
        → Meets (named_design names.new) (design_in d (segments_of frame.now)) result }
    ensures keeps { KeepsNumbers names.old names.new }
    ensures most { length names.new ≤ length names.old + 2 ^ 28 + 65 }
{
    match read_netlist(alloc, frame, names) {
        Ok(rec) => {
            // That no two names are alike is what the table tells with their number.
            let _count = names.len();
            Ok(rec)
        }
        Err(fault) => Err(reading_fault(File::Design, fault)),
    }
}

/// Flattens a design, whose flat names are added to the names.
pub(crate) fn flat_design(
    alloc: Global,
    rec: &NetlistRec,
    device: &Device,
    names: &mut Names,
) -> Result<Flat, Stop>
    requires design { IsNetlistNamed names.old rec.now }
    requires device { DeviceNamed (length names.old) device.now }
    requires few { length names.old + 2 ^ 29 < 2 ^ 32 - 1 }
    ensures flat { Meets (named_flat names.new)
        (flattened device.now (named_design names.old rec.now)) result }
    ensures keeps { KeepsNumbers names.old names.new }
    ensures most { length names.new ≤ length names.old + 2 ^ 29 }
{
    read_netlists_fit();
    read_devices_fit();
    match flatten(alloc, rec, device, names) {
        Ok(flat) => {
            let _count = names.len();
            Ok(flat)
        }
        Err(DesignFault::Broken(rule, word)) => {
            Err(broken(File::Design, rule, Place::Named(word)))
        }
        Err(DesignFault::Memory) => Err(Stop::Memory),
    }
}

/// Fixes the ports of a flat design.
pub(crate) fn pinned(
    alloc: Global,
    rec: &NetlistRec,
    device: &Device,
    flat: Flat,
    names: &Names,
) -> Result<Flat, Stop>
    requires design { (count : ℕ) × NetlistFits count rec.now }
    requires flat { (old : List Text) × IsFlatDesign device.now (named_design old rec.now)
        (named_flat names.now flat) }
    ensures pinned { (design : NamedDesign) → design.rec ≡ rec.now
        → Meets (λ flat. flat) (pinned device.now design (named_flat names.now flat)) result }
    ensures range { IfOk result (IsInRange device.now) }
    ensures named { IfOk result (IsNamed (length names.now)) }
    ensures whole { IfOk result (IsWhole names.now device.now) }
{
    match fixed_pins(alloc, rec, device, flat, names) {
        Ok(flat) => Ok(flat),
        Err(PinFault::Broken(rule, word)) => Err(broken(File::Design, rule, Place::Named(word))),
        Err(PinFault::Memory) => Err(Stop::Memory),
    }
}

// Whether no pin of a flat design is on a net, and no port is fixed.
fn is_unconnected(flat: &Flat) -> bool
    ensures { result ≡ (nat_eq (len flat.now.pins) 0 && nat_eq (len flat.now.fixed) 0) }
{
    flat.pins.len() == 0 && flat.fixed.len() == 0
}

/// The cells of a flat design without connected pins and fixed ports.
fn unconnected(flat: Flat) -> Result<Items<FlatCell>, Stop>
    ensures { (names : List Text) → Meets (named_cells names) (unconnected names flat) result }
{
    if !is_unconnected(&flat) {
        return Err(Stop::Refused(Report::NotBuilt(File::Design)));
    }
    let Flat { cells, .. } = flat;
    Ok(cells)
}

/// The cells of a design, whose flat names are added to the names.
fn cells_in(
    alloc: Global,
    rec: &NetlistRec,
    device: &Device,
    names: &mut Names,
) -> Result<Items<FlatCell>, Stop>
    requires design { IsNetlistNamed names.old rec.now }
    requires device { DeviceNamed (length names.old) device.now }
    requires few { length names.old + 2 ^ 29 < 2 ^ 32 - 1 }
    ensures cells { Meets (named_cells names.new)
        (cells_in device.now (named_design names.old rec.now)) result }
    ensures named { IfOk result (AllByRecursion (CellNamed (length names.new))) }
    ensures keeps { KeepsNumbers names.old names.new }
{
    read_netlists_fit();
    let flat = flat_design(alloc, rec, device, names)?;
    let flat = pinned(alloc, rec, device, flat, names)?;
    unconnected(flat)
}

// A name as a word of its own. `Memory` is its only error.
fn word_of(alloc: Global, names: &Names, id: NameId) -> Result<Word, Memory>
    requires { id < length names.now }
    ensures { IfOk result (λ w. slice_get names.now id ≡ Some w) }
{
    Word::new(alloc, names.name(id))
}

// Why cells have no places, with the names that are told. `Memory` is its only error.
fn unplaced(
    alloc: Global,
    names: &Names,
    cells: &Items<FlatCell>,
    fault: FitFault,
) -> Result<Report, Memory>
    requires cells { AllByRecursion (CellNamed (length names.now)) cells.now }
    requires fault { IsFaultNamed names.now cells.now fault }
    ensures { (rec : DeviceRec) → IsFitFault rec cells.now fault
        → IfOk result (λ report. placed rec (named_cells names.now cells.now) (Err report)) }
{
    match fault {
        FitFault::TooFewBels { kind, cells, bels } => Ok(Report::TooFewBels {
            kind: word_of(alloc, names, kind)?,
            cells,
            bels,
        }),
        FitFault::NoSite { cell } => Ok(Report::NoSite {
            cell: word_of(alloc, names, cells.at(cell as usize).name)?,
        }),
        FitFault::Memory => Err(Memory),
    }
}

/// Places the cells of a design, none of which is on a net.
fn place(
    alloc: Global,
    device: &Device,
    names: &Names,
    cells: &Items<FlatCell>,
) -> Result<Phys, Stop>
    requires named { DeviceNamed (length names.now) device.now }
    requires cells { AllByRecursion (CellNamed (length names.now)) cells.now }
    ensures placed { Meets (λ phys. phys) (placed device.now (named_cells names.now cells.now))
        result }
    ensures named { IfOk result (IsPhysNamed names.now) }
{
    // What first fit gives has each cell on a place of its own.
    fits_have_own_places();
    match first_fit(alloc, device, cells) {
        Ok(phys) => Ok(phys),
        Err(fault) => match unplaced(alloc, names, cells, fault) {
            Ok(report) => Err(Stop::Refused(report)),
            Err(_) => Err(Stop::Memory),
        },
    }
}

// What is told of so many cells on so many sites, without nets.
fn implemented(cells: u32, sites: u32) -> Report
    ensures { result ≡ implemented cells sites }
{
    Report::Implemented {
        cells,
        clusters: sites,
        nets: 0,
        pips: 0,
        trial: 1,
        rounds: 1,
    }
}

// A job that writes one file.
fn with_output(alloc: Global, report: Report, bytes: Vec<u8>) -> Result<Outcome, Memory>
    ensures { IfOk result (λ outcome. outcome_seen outcome
        ≡ record { report = report; outputs = bytes.items ∷ [] }) }
{
    let mut outputs = Items::new(alloc);
    outputs.push(Bytes::new(bytes))?;
    Ok(Outcome { report, outputs })
}

/// The file of a netlist of cells.
fn write(
    alloc: Global,
    phys: &Phys,
    names: &Names,
    cells: &Items<FlatCell>,
) -> Result<Outcome, Stop>
    requires { IsPhysNamed names.now phys.now }
    ensures { Meets outcome_seen (written (named_cells names.now cells.now) phys.now) result }
{
    let report = implemented(number_of(cells.len())?, number_of(phys.site_insts.len())?);
    match write_phys(alloc, phys, names) {
        Ok(bytes) => Ok(with_output(alloc, report, bytes)?),
        Err(BuildFault::TooLong) => Err(Stop::Refused(Report::TooLong)),
        Err(BuildFault::Memory) => Err(Stop::Memory),
    }
}

/// Places the cells of a design, none of which is on a net, and writes their netlist.
fn netlist_for(
    alloc: Global,
    device: &Device,
    names: &Names,
    cells: &Items<FlatCell>,
) -> Result<Outcome, Stop>
    requires named { DeviceNamed (length names.now) device.now }
    requires cells { AllByRecursion (CellNamed (length names.now)) cells.now }
    ensures { Meets outcome_seen (netlist_for device.now (named_cells names.now cells.now)) result }
{
    let phys = place(alloc, device, names, cells)?;
    write(alloc, &phys, names, cells)
}

/// The answer to a design for a device that breaks no rule.
fn answer_for(
    alloc: Global,
    device: &Device,
    names: &mut Names,
    design: &Content,
) -> Result<Outcome, Stop>
    requires room { length names.old ≤ 2 ^ 28 + 66 }
    requires named { DeviceNamed (length names.old) device.now }
    ensures { Meets outcome_seen (answer_for (named_device names.old device.now)
        (content_seen design.now)) result }
{
    devices_stay_named();
    let frame = open(File::Design, design)?;
    let rec = read_design(alloc, &frame, names)?;
    let cells = cells_in(alloc, &rec, device, names)?;
    netlist_for(alloc, device, names, &cells)
}

/// The answer to two files: the device is judged before the design.
pub(crate) fn answer(alloc: Global, device: &Content, design: &Content) -> Result<Outcome, Stop>
    ensures { Meets outcome_seen (answer (content_seen device.now) (content_seen design.now))
        result }
{
    let frame = open(File::Device, device)?;
    let mut names = Names::new(alloc);
    let device = valid_device(alloc, &frame, &mut names)?;
    answer_for(alloc, &device, &mut names, design)
}
