//! The words for rules and files.

ghost use Rattle.std.specs.Prelude.{◌≡◌};
ghost use Rattle.ix_report.specs.Lines.{rule_name, file_word};

use ix_rec::{File, Rule};

pub(crate) fn rule_word(rule: Rule) -> &'static str
    ensures { result.now ≡ rule_name rule }
{
    match rule {
        Rule::F1 => "F1",
        Rule::F2 => "F2",
        Rule::F3 => "F3",
        Rule::F4 => "F4",
        Rule::F5 => "F5",
        Rule::F6 => "F6",
        Rule::F7 => "F7",
        Rule::F8 => "F8",
        Rule::F9 => "F9",
        Rule::I1 => "I1",
        Rule::M1 => "M1",
        Rule::M2 => "M2",
        Rule::M3 => "M3",
        Rule::M4 => "M4",
        Rule::M5 => "M5",
        Rule::M6 => "M6",
        Rule::M7 => "M7",
        Rule::N1 => "N1",
        Rule::N2 => "N2",
        Rule::N3 => "N3",
        Rule::N4 => "N4",
        Rule::N5 => "N5",
        Rule::N6 => "N6",
        Rule::N7 => "N7",
        Rule::N8 => "N8",
        Rule::N9 => "N9",
        Rule::N10 => "N10",
        Rule::P1 => "P1",
        Rule::P2 => "P2",
        Rule::P3 => "P3",
        Rule::P4 => "P4",
        Rule::P5 => "P5",
        Rule::L1 => "L1",
        Rule::L2 => "L2",
        Rule::L3 => "L3",
        Rule::L4 => "L4",
        Rule::L5 => "L5",
        Rule::L6 => "L6",
        Rule::L7 => "L7",
        Rule::L8 => "L8",
        Rule::L9 => "L9",
        Rule::L10 => "L10",
        Rule::E1 => "E1",
        Rule::E2 => "E2",
        Rule::E3 => "E3",
    }
}

pub(crate) fn word_of_file(file: File) -> &'static str
    ensures { result.now ≡ file_word file }
{
    match file {
        File::Device => "device",
        File::Design => "design",
        File::Packed => "packed",
        File::Phys => "phys",
    }
}
