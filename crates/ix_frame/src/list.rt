//! Lists.

ghost use Rattle.std.specs.Prelude.{◌+◌, ◌*◌, ◌≤◌, length};

use crate::follow::text_behind;
use crate::frame::Budget;
use crate::object::Obj;
use crate::segment::Segment;
use crate::table::behind;
use byteorder::{ByteOrder, LittleEndian};
use ix_num::FrameFault;

/// A list of structs, which stand one after another and are alike in their sections: a composite
/// list of the Cap'n Proto encoding specification, "Lists". A `Copy` value over the file's bytes.
#[derive(Clone, Copy)]
pub struct List<'a> {
    pub(crate) segment: Segment<'a>,
    pub(crate) start: u32,
    pub(crate) count: u32,
    pub(crate) data_words: u16,
    pub(crate) pointer_words: u16,
    ghost inside: { 8 * (start + count * (data_words + pointer_words)) ≤ length segment.bytes.now },
}

impl<'a> List<'a> {
    ghost use Rattle.std.specs.Prelude.{◌≡◌, ◌<◌};
    ghost use Rattle.ix_frame.specs.Objects.{element_of};
    ghost use Rattle.ix_frame.specs.Views.{object_of, elements_of};

    /// How many structs there are.
    pub fn len(&self) -> u32
        ensures { result ≡ (elements_of self.now).count }
    {
        self.count
    }

    /// The i-th struct, counted from 0.
    pub fn at(&self, i: u32) -> Obj<'a>
        requires { i < (elements_of self.now).count }
        ensures { object_of result ≡ element_of (elements_of self.now) i }
    {
        let words = self.data_words as u32 + self.pointer_words as u32;
        Obj {
            segment: self.segment,
            start: self.start + i * words,
            data_words: self.data_words,
            pointer_words: self.pointer_words,
        }
    }
}

/// A list of numbers of 32 bits, the lowest byte first: element size 4 of the Cap'n Proto encoding
/// specification, "Lists". A `Copy` value over the file's bytes.
#[derive(Clone, Copy)]
pub struct Numbers<'a> {
    pub(crate) segment: Segment<'a>,
    pub(crate) start: u32,
    pub(crate) count: u32,
    ghost inside: { 8 * start + 4 * count ≤ length segment.bytes.now },
}

impl<'a> Numbers<'a> {
    ghost use Rattle.std.specs.Prelude.{◌≡◌, ◌<◌, slice_index};
    ghost use Rattle.ix_frame.specs.Views.{numbers_of, number_elements};

    /// How many numbers there are.
    pub fn len(&self) -> u32
        ensures exact { result ≡ length (numbers_of self.now) }
        ensures count { result ≡ (number_elements self.now).count }
    {
        self.count
    }

    /// The i-th number, counted from 0.
    pub fn at(&self, i: u32) -> u32
        requires { i < length (numbers_of self.now) }
        ensures { result ≡ slice_index (numbers_of self.now) i }
    {
        LittleEndian::read_u32(behind(self.segment.bytes, 8 * self.start as usize + 4 * i as usize))
    }
}

/// A list of texts, which is a list of pointers: element size 6 of the Cap'n Proto encoding
/// specification, "Lists". A `Copy` value over the file's bytes.
#[derive(Clone, Copy)]
pub struct Texts<'a> {
    pub(crate) segment: Segment<'a>,
    pub(crate) start: u32,
    pub(crate) count: u32,
    ghost inside: { 8 * (start + count) ≤ length segment.bytes.now },
}

impl<'a> Texts<'a> {
    ghost use Rattle.std.specs.Prelude.{◌≡◌, ◌<◌, IfOk};
    ghost use Rattle.ix_frame.specs.Result.{Gives};
    ghost use Rattle.ix_frame.specs.Objects.{text_in};
    ghost use Rattle.ix_frame.specs.Views.{text_elements};

    /// How many texts there are.
    pub fn len(&self) -> u32
        ensures { result ≡ (text_elements self.now).count }
    {
        self.count
    }

    /// The i-th text, counted from 0, without the NUL that ends it: a slice of the file, empty
    /// where its pointer is zero. The words of its bytes, rounded up, at least 1, are taken from
    /// the budget, and nothing for a pointer that is zero. Else the first of F5, F4, F3, F7 and F6,
    /// at the text's own word of the list, and the budget is as before.
    pub fn at(&self, i: u32, budget: &mut Budget) -> Result<&'a str, FrameFault>
        requires { i < (text_elements self.now).count }
        ensures exact { Gives (λ text. text.now) result budget.old budget.new
            (text_in (text_elements self.now) i budget.old) }
        ensures left { budget.new ≤ budget.old }
        ensures short { IfOk result (λ text. length text.now + 8 * budget.new ≤ 8 * budget.old) }
    {
        text_behind(&self.segment, self.start + i, budget)
    }
}
