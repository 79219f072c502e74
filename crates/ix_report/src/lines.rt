//! The line of a report.

ghost use Rattle.std.specs.Prelude.{◌≡◌, ◌++◌, IfOk, OnOk, string_bytes, codes};
ghost use Rattle.ix_report.specs.Lines.{packed_text, placed_text, routed_text, counts_text};
ghost use Rattle.ix_report.specs.Lines.{effort_text, yes_text, demo_text, broken_text};
ghost use Rattle.ix_report.specs.Lines.{in_vain_text, shared_text, few_bels_text, needs_text};
ghost use Rattle.ix_report.specs.Lines.{file_word, place_text, text_of, line_of};

use crate::report::Report;
use crate::words::{rule_word, word_of_file};
use ix_num::Memory;
use ix_rec::{File, Place, Rule};
use std::alloc::{AllocError, Global};

/// The line of `Report::Usage`.
pub const USAGE_LINE: &[u8] = b"bad words\n";

/// The line of `Report::OutOfMemory`, which takes no memory to make.
pub const OUT_OF_MEMORY_LINE: &[u8] = b"out of memory\n";

fn push_place(text: &mut String, place: &Place) -> Result<(), AllocError>
    ensures { OnOk result (string_bytes text.new ≡ string_bytes text.old ++ place_text place.now) }
{
    match place {
        Place::File => text.push_str("file"),
        Place::At { segment, word } => write!(text, "word {segment}:{word}"),
        Place::Item { kind, field, index } => {
            text.push_str(kind.as_str())?;
            text.push_str(".")?;
            text.push_str(field.as_str())?;
            write!(text, " {index}")
        }
        Place::Named(name) => text.push_str(name.as_str()),
        Place::Cell(name) => {
            text.push_str("cell ")?;
            text.push_str(name.as_str())
        }
        Place::Pin(cell, pin) => {
            text.push_str("pin ")?;
            text.push_str(cell.as_str())?;
            text.push_str("/")?;
            text.push_str(pin.as_str())
        }
        Place::Segment { net, index } => {
            text.push_str("net ")?;
            text.push_str(net.as_str())?;
            write!(text, " #{index}")
        }
        Place::Element(site, element) => {
            text.push_str("element ")?;
            text.push_str(site.as_str())?;
            write!(text, " {element}")
        }
        Place::Site(name) => {
            text.push_str("site ")?;
            text.push_str(name.as_str())
        }
        Place::Key(key) => {
            text.push_str("key ")?;
            text.push_str(key.as_str())
        }
    }
}

fn push_broken(text: &mut String, rule: Rule, place: &Place) -> Result<(), AllocError>
    ensures { OnOk result (string_bytes text.new
        ≡ string_bytes text.old ++ broken_text rule place.now) }
{
    text.push_str(rule_word(rule))?;
    text.push_str(" at ")?;
    push_place(text, place)
}

fn push_two(text: &mut String, first: &str, second: &str) -> Result<(), AllocError>
    ensures { OnOk result (string_bytes text.new
        ≡ string_bytes text.old ++ (first.now ++ second.now)) }
{
    text.push_str(first)?;
    text.push_str(second)
}

fn push_bad(text: &mut String, file: &str, rule: Rule, place: &Place) -> Result<(), AllocError>
    ensures { OnOk result (string_bytes text.new
        ≡ string_bytes text.old ++ (file.now ++ (codes ": " ++ broken_text rule place.now))) }
{
    push_two(text, file, ": ")?;
    push_broken(text, rule, place)
}

fn push_packed(text: &mut String, cells: u32, clusters: u32) -> Result<(), AllocError>
    ensures { OnOk result (string_bytes text.new
        ≡ string_bytes text.old ++ packed_text cells clusters) }
{
    write!(text, "packed {cells} cells in {clusters} clusters")
}

fn push_placed(text: &mut String, clusters: u32, length: u64) -> Result<(), AllocError>
    ensures { OnOk result (string_bytes text.new
        ≡ string_bytes text.old ++ placed_text clusters length) }
{
    write!(text, "placed {clusters} clusters, length {length}")
}

fn push_routed(text: &mut String, nets: u32, pips: u64, rounds: u32) -> Result<(), AllocError>
    ensures { OnOk result (string_bytes text.new
        ≡ string_bytes text.old ++ routed_text nets pips rounds) }
{
    write!(text, "routed {nets} nets, {pips} pips, rounds {rounds}")
}

fn yes_word(derived: bool) -> &'static str
    ensures { result.now ≡ yes_text derived }
{
    if derived {
        "yes, tables derived"
    } else {
        "yes"
    }
}

fn push_demo(
    text: &mut String,
    number: u32,
    luts: u32,
    flip_flops: u32,
    ports: u32,
) -> Result<(), AllocError>
    ensures { OnOk result (string_bytes text.new
        ≡ string_bytes text.old ++ demo_text number luts flip_flops ports) }
{
    write!(
        text,
        "demo {number}: {luts} luts, {flip_flops} flip-flops, {ports} ports"
    )
}

fn push_in_vain(text: &mut String, rounds: u32, trial: u32) -> Result<(), AllocError>
    ensures { OnOk result (string_bytes text.new
        ≡ string_bytes text.old ++ in_vain_text rounds trial) }
{
    write!(text, " after {rounds} rounds, trial {trial}")
}

fn push_shared(
    text: &mut String,
    node: &str,
    a: &str,
    b: &str,
    rounds: u32,
    trial: u32,
) -> Result<(), AllocError>
    ensures { OnOk result (string_bytes text.new
        ≡ string_bytes text.old ++ shared_text node.now a.now b.now rounds trial) }
{
    push_two(text, "shared: ", node)?;
    push_two(text, " by ", a)?;
    push_two(text, " and ", b)?;
    push_in_vain(text, rounds, trial)
}

fn push_unreachable(text: &mut String, net: &str, node: &str) -> Result<(), AllocError>
    ensures { OnOk result (string_bytes text.new
        ≡ string_bytes text.old ++ (codes "unreachable: "
        ++ (net.now ++ (codes " at " ++ node.now)))) }
{
    push_two(text, "unreachable: ", net)?;
    push_two(text, " at ", node)
}

fn push_counts(
    text: &mut String,
    cells: u32,
    clusters: u32,
    nets: u32,
    pips: u64,
) -> Result<(), AllocError>
    ensures { OnOk result (string_bytes text.new
        ≡ string_bytes text.old ++ counts_text cells clusters nets pips) }
{
    write!(
        text,
        "done: {cells} cells, {clusters} clusters, {nets} nets, {pips} pips"
    )
}

fn push_effort(text: &mut String, trial: u32, rounds: u32) -> Result<(), AllocError>
    ensures { OnOk result (string_bytes text.new
        ≡ string_bytes text.old ++ effort_text trial rounds) }
{
    write!(text, ", trial {trial}, rounds {rounds}")
}

fn push_needs(text: &mut String, cells: u64, bels: u64) -> Result<(), AllocError>
    ensures { OnOk result (string_bytes text.new ≡ string_bytes text.old ++ needs_text cells bels) }
{
    write!(text, " needs {cells} of {bels}")
}

fn push_few_bels(text: &mut String, kind: &str, cells: u64, bels: u64) -> Result<(), AllocError>
    ensures { OnOk result (string_bytes text.new
        ≡ string_bytes text.old ++ few_bels_text kind.now cells bels) }
{
    push_two(text, "too few bels: ", kind)?;
    push_needs(text, cells, bels)?;
    Ok(())
}

fn push_report(text: &mut String, report: &Report) -> Result<(), AllocError>
    ensures { OnOk result (string_bytes text.new ≡ string_bytes text.old ++ text_of report.now) }
{
    match report {
        Report::Packed { cells, clusters } => push_packed(text, *cells, *clusters),
        Report::Placed { clusters, length } => push_placed(text, *clusters, *length),
        Report::Routed { nets, pips, rounds } => push_routed(text, *nets, *pips, *rounds),
        Report::Implemented {
            cells,
            clusters,
            nets,
            pips,
            trial,
            rounds,
        } => {
            push_counts(text, *cells, *clusters, *nets, *pips)?;
            push_effort(text, *trial, *rounds)
        }
        Report::Yes { derived } => text.push_str(yes_word(*derived)),
        Report::No { rule, place } => push_bad(text, "no", *rule, place),
        Report::Demo {
            number,
            luts,
            flip_flops,
            ports,
        } => push_demo(text, *number, *luts, *flip_flops, *ports),
        Report::Usage => text.push_str("bad words"),
        Report::Bad { file, rule, place } => push_bad(text, word_of_file(*file), *rule, place),
        Report::NotBuilt(file) => push_two(text, "not built yet: ", word_of_file(*file)),
        Report::TooLong => text.push_str("output too long"),
        Report::TooFewBels { kind, cells, bels } => {
            push_few_bels(text, kind.as_str(), *cells, *bels)
        }
        Report::Unpackable { cell } => push_two(text, "unpackable: ", cell.as_str()),
        Report::NoSite { cell } => push_two(text, "no site: ", cell.as_str()),
        Report::Unreachable { net, node } => push_unreachable(text, net.as_str(), node.as_str()),
        Report::Congested {
            node,
            a,
            b,
            rounds,
            trial,
        } => push_shared(text, node.as_str(), a.as_str(), b.as_str(), *rounds, *trial),
        Report::ReadFault { file } => push_two(text, "read fault: ", file.as_str()),
        Report::WriteFault { file } => push_two(text, "write fault: ", file.as_str()),
        Report::OutOfMemory => text.push_str("out of memory"),
    }
}

/// The line of a report, with the line feed that ends it. `Memory` is its only error.
pub fn line(alloc: Global, report: &Report) -> Result<Vec<u8>, Memory>
    ensures { IfOk result (λ bytes. bytes.items ≡ line_of report.now) }
{
    let mut text = String::new(alloc);
    push_report(&mut text, report)?;
    text.push_str("\n")?;
    Ok(text.into_bytes())
}
