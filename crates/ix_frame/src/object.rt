//! Structs.

ghost use Rattle.std.specs.Prelude.{◌+◌, ◌*◌, ◌≤◌, length};

use crate::follow::{
    Run, elements_behind, no_elements, no_run, no_struct, run_behind, struct_behind, text_behind,
};
use crate::frame::Budget;
use crate::list::{List, Numbers, Texts};
use crate::segment::Segment;
use crate::table::behind;
use byteorder::{ByteOrder, LittleEndian};
use ix_num::FrameFault;

/// A struct of a message: its place, and how many words its data and its pointers take (Cap'n Proto
/// encoding specification, "Structs" and "Default Values"). A `Copy` value over the file's bytes.
///
/// A field is read by its slot, counted from 0 within its section: data in slots of 32 bits,
/// pointers in slots of a word. A field past its section has its default, so that a struct written
/// by an older or a newer schema is read by the part that is known.
#[derive(Clone, Copy)]
pub struct Obj<'a> {
    pub(crate) segment: Segment<'a>,
    pub(crate) start: u32,
    pub(crate) data_words: u16,
    pub(crate) pointer_words: u16,
    ghost inside: { 8 * (start + data_words + pointer_words) ≤ length segment.bytes.now },
}

impl<'a> Obj<'a> {
    ghost use Rattle.std.specs.Prelude.{◌≡◌, IfOk};
    ghost use Rattle.ix_frame.specs.Result.{Gives};
    ghost use Rattle.ix_frame.specs.Objects.{u32_in, bool_in, tag_in, has_pointer, struct_at};
    ghost use Rattle.ix_frame.specs.Objects.{elements_at, list_at, text_at};
    ghost use Rattle.ix_frame.specs.Target.{list_words};
    ghost use Rattle.ix_frame.specs.Views.{object_of, elements_of, run_of, IsRun, number_elements};
    ghost use Rattle.ix_frame.specs.Views.{text_elements};

    /// The number in this data slot, 0 past the data section.
    #[tactic(auto, unfolding(crate::specs::Objects::u32_in))]
    pub fn u32_at(&self, slot: u32) -> u32
        ensures { result ≡ u32_in (object_of self.now) slot }
    {
        if slot < 2 * self.data_words as u32 {
            LittleEndian::read_u32(behind(
                self.segment.bytes,
                8 * self.start as usize + 4 * slot as usize,
            ))
        } else {
            0
        }
    }

    /// The Bool in this data slot, which is the lowest bit; false past the data section.
    pub fn bool_at(&self, slot: u32) -> bool
        ensures { result ≡ bool_in (object_of self.now) slot }
    {
        self.u32_at(slot) % 2 == 1
    }

    /// The tag or enumerant in this data slot, which is the low 16 bits; 0 past the data section.
    pub fn tag_at(&self, slot: u32) -> u16
        ensures { result ≡ tag_in (object_of self.now) slot }
    {
        (self.u32_at(slot) % 0x1_0000) as u16
    }

    /// Whether this pointer is there and isn't zero.
    #[tactic(auto, unfolding(crate::specs::Objects::has_pointer))]
    pub fn has(&self, slot: u32) -> bool
        ensures { result ≡ has_pointer (object_of self.now) slot }
    {
        slot < self.pointer_words as u32
            && self
                .segment
                .word(self.start + self.data_words as u32 + slot)
                != 0
    }

    /// The struct behind this pointer, and one without words where the pointer is zero or past the
    /// pointer section. Its words, at least 1, are taken from the budget, and nothing for the
    /// default. Else the first of F5, F4, F3 and F7, at the pointer's own word, and the budget is
    /// as before.
    #[tactic(auto, unfolding(crate::specs::Objects::struct_at))]
    pub fn obj(&self, slot: u32, budget: &mut Budget) -> Result<Obj<'a>, FrameFault>
        ensures exact { Gives object_of result budget.old budget.new
            (struct_at (object_of self.now) slot budget.old) }
        ensures left { budget.new ≤ budget.old }
    {
        if slot < self.pointer_words as u32 {
            struct_behind(
                &self.segment,
                self.start + self.data_words as u32 + slot,
                budget,
            )
        } else {
            Ok(no_struct(&self.segment))
        }
    }
    /// The text behind this pointer, without the NUL that ends it: a slice of the file, empty where
    /// the pointer is zero or past the pointer section (Cap'n Proto encoding specification,
    /// "Blobs"). The words of its bytes, rounded up, at least 1, are taken from the budget, and
    /// nothing for the default. Else the first of F5, F4, F3, F7 and F6, at the pointer's own word,
    /// and the budget is as before.
    #[tactic(auto, unfolding(crate::specs::Objects::text_at))]
    pub fn text(&self, slot: u32, budget: &mut Budget) -> Result<&'a str, FrameFault>
        ensures exact { Gives (λ text. text.now) result budget.old budget.new
            (text_at (object_of self.now) slot budget.old) }
        ensures left { budget.new ≤ budget.old }
        ensures short { IfOk result (λ text. length text.now + 8 * budget.new ≤ 8 * budget.old) }
    {
        if slot < self.pointer_words as u32 {
            text_behind(
                &self.segment,
                self.start + self.data_words as u32 + slot,
                budget,
            )
        } else {
            Ok("")
        }
    }

    /// The list of structs behind this pointer, a composite list; empty where the pointer is zero
    /// or past the pointer section. Taken from the budget are 1 for its tag, its words, and its
    /// count where its elements have no word; nothing for the default. Else the first of F5, F4,
    /// F3, F8 and F7, at the pointer's own word, and the budget is as before.
    #[tactic(auto, unfolding(crate::specs::Objects::elements_at))]
    pub fn list(&self, slot: u32, budget: &mut Budget) -> Result<List<'a>, FrameFault>
        ensures exact { Gives elements_of result budget.old budget.new
            (elements_at (object_of self.now) slot budget.old) }
        ensures left { budget.new ≤ budget.old }
        ensures count { IfOk result (λ l. (elements_of l).count + budget.new ≤ budget.old) }
    {
        if slot < self.pointer_words as u32 {
            elements_behind(
                &self.segment,
                self.start + self.data_words as u32 + slot,
                budget,
            )
        } else {
            Ok(no_elements(&self.segment))
        }
    }

    /// The list of this element size behind a pointer.
    #[tactic(auto, unfolding(crate::specs::Objects::list_at))]
    fn run(&self, size: u32, slot: u32, budget: &mut Budget) -> Result<Run<'a>, FrameFault>
        ensures exact { Gives run_of result budget.old budget.new
            (list_at size (object_of self.now) slot budget.old) }
        ensures left { budget.new ≤ budget.old }
        ensures words { IfOk result (λ l. list_words size l.count + budget.new ≤ budget.old) }
        ensures inside { IfOk result (IsRun size) }
    {
        if slot < self.pointer_words as u32 {
            run_behind(
                size,
                &self.segment,
                self.start + self.data_words as u32 + slot,
                budget,
            )
        } else {
            Ok(no_run(&self.segment))
        }
    }

    /// The list of numbers of 32 bits behind this pointer; empty where the pointer is zero or past
    /// the pointer section. Its words, rounded up, at least 1, are taken from the budget, and
    /// nothing for the default. Else the first of F5, F4, F3 and F7, at the pointer's own word, and
    /// the budget is as before.
    pub fn numbers(&self, slot: u32, budget: &mut Budget) -> Result<Numbers<'a>, FrameFault>
        ensures exact { Gives number_elements result budget.old budget.new
            (list_at 4 (object_of self.now) slot budget.old) }
        ensures left { budget.new ≤ budget.old }
        ensures count { IfOk result (λ l. (number_elements l).count + 2 * budget.new
            ≤ 2 * budget.old) }
    {
        let run = self.run(4, slot, budget)?;
        Ok(Numbers {
            segment: run.segment,
            start: run.start,
            count: run.count,
        })
    }

    /// The list of texts behind this pointer; empty where the pointer is zero or past the pointer
    /// section. A word for each text, at least 1 in all, is taken from the budget, and nothing for
    /// the default. Else the first of F5, F4, F3 and F7, at the pointer's own word, and the budget
    /// is as before.
    pub fn texts(&self, slot: u32, budget: &mut Budget) -> Result<Texts<'a>, FrameFault>
        ensures exact { Gives text_elements result budget.old budget.new
            (list_at 6 (object_of self.now) slot budget.old) }
        ensures left { budget.new ≤ budget.old }
        ensures count { IfOk result (λ l. (text_elements l).count + budget.new ≤ budget.old) }
    {
        let run = self.run(6, slot, budget)?;
        Ok(Texts {
            segment: run.segment,
            start: run.start,
            count: run.count,
        })
    }
}
