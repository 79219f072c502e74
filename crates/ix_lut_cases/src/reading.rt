//! The fields of a case as what the calls are given.

use ix_cases::number;
use ix_lut::{BelShape, ElementShape, LutUse, Table, Tie};
use ix_num::{NetId, NetRef};

/// Some numbers, at most six; a list of more has the count of all and the first six.
#[derive(Clone, Copy)]
pub(crate) struct Six {
    pub(crate) count: u32,
    pub(crate) numbers: [u32; 6],
}

/// The numbers of a list with commas.
pub(crate) fn six_of(list: &str) -> Six {
    let mut count: u32 = 0;
    let mut numbers = [0; 6];
    for text in list.split(',') {
        if count < 6 {
            numbers[count as usize] = number(text);
        }
        count = count.saturating_add(1);
    }
    Six { count, numbers }
}

/// The number that hexadecimal digits write.
pub(crate) fn bits_of(digits: &str) -> u64 {
    let mut bits: u64 = 0;
    for digit in digits.chars() {
        let value = digit.to_digit(16).unwrap_or(0);
        bits = bits.wrapping_mul(16).wrapping_add(u64::from(value));
    }
    bits
}

// What stands before and behind the first colon of a word.
fn parts_of(word: &str) -> (&str, &str) {
    word.split_once(':').unwrap_or((word, ""))
}

fn bel_of(word: &str) -> BelShape {
    let (low, lines) = parts_of(word);
    let six = six_of(lines);
    let lines = six.numbers;
    BelShape {
        low: number(low),
        inputs: six.count,
        lines,
    }
}

/// The shape of an element with so many lines and these BELs, of which it keeps eight.
pub(crate) fn shape_of(lines: u32, words: &str) -> ElementShape {
    let mut bel_count: u32 = 0;
    let mut bels = [bel_of(""); 8];
    for word in words.split_whitespace() {
        if bel_count < 8 {
            bels[bel_count as usize] = bel_of(word);
        }
        bel_count = bel_count.saturating_add(1);
    }
    ElementShape {
        lines,
        bel_count,
        bels,
    }
}

fn net_of(word: &str) -> NetRef {
    match word {
        "gnd" => NetRef::Gnd,
        "vcc" => NetRef::Vcc,
        _ => NetRef::Signal(NetId::new(number(word))),
    }
}

fn cell_of(word: &str) -> LutUse {
    let (bel, rest) = parts_of(word);
    let (bits, list) = parts_of(rest);
    let mut inputs: u32 = 0;
    let mut nets = [NetRef::Gnd; 6];
    for net in list.split(',') {
        if inputs < 6 {
            nets[inputs as usize] = net_of(net);
        }
        inputs = inputs.saturating_add(1);
    }
    let table = Table {
        bits: bits_of(bits),
        inputs,
    };
    LutUse {
        bel: number(bel),
        table,
        nets,
    }
}

/// LUT cells, at most eight; of more there are the count of all and the first eight.
#[derive(Clone, Copy)]
pub(crate) struct Cells {
    pub(crate) count: u32,
    pub(crate) cells: [LutUse; 8],
}

/// The LUT cells of these words.
pub(crate) fn cells_of(words: &str) -> Cells {
    let mut count: u32 = 0;
    let mut cells = [cell_of(""); 8];
    for word in words.split_whitespace() {
        if count < 8 {
            cells[count as usize] = cell_of(word);
        }
        count = count.saturating_add(1);
    }
    Cells { count, cells }
}

/// The ties that letters write, a letter a line.
pub(crate) fn ties_of(letters: &str) -> [Tie; 12] {
    let mut ties = [Tie::Free; 12];
    for (line, letter) in letters.as_bytes().iter().enumerate() {
        if line < 12 {
            ties[line] = match letter {
                b'0' => Tie::Gnd,
                b'1' => Tie::Vcc,
                _ => Tie::Free,
            };
        }
    }
    ties
}
