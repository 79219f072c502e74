//! Frames, and what reading them may cost.

ghost use Rattle.std.specs.Prelude.{◌≡◌, ◌+◌, ◌-◌, ◌≤◌, ◌^◌, length, IfOk, IfErr};
ghost use Rattle.ix_frame.specs.Segments.{IsFrame, segments};

use crate::follow::struct_behind;
use crate::object::Obj;
use crate::segment::Segment;
use crate::table::sum_of_table;
use byteorder::{ByteOrder, LittleEndian};
use ix_num::{FrameFault, FrameRule};
use std::marker::Model;

/// What reading a message may still cost, in words. Each pointer that is followed is charged for
/// the object behind it, so that no message, however its pointers share objects or lead back, is
/// read for longer than its size allows (Cap'n Proto encoding specification, "Security
/// Considerations": amplification).
#[derive(Drop)]
pub struct Budget(u64);

impl Model for Budget {
    ghost use Rattle.std.specs.Prelude.{ℕ};

    ghost Value = { ℕ };

    ghost view = { λ budget. budget.0 };

    ghost inverse = { λ n. record { 0 = n } };
}

impl Budget {
    ghost use Rattle.ix_frame.specs.Objects.{whole_budget};
    ghost use Rattle.ix_frame.specs.Views.{segments_of};

    /// What one reading of a frame may cost: twice the words of its segments, plus 64.
    pub fn new(frame: &Frame<'_>) -> Budget
        ensures exact { result ≡ whole_budget (segments_of frame.now) }
        ensures bound { result ≤ 2 ^ 28 + 64 }
    {
        let count = LittleEndian::read_u32(frame.bytes) as u64 + 1;
        let table = 8 * (count / 2 + 1);
        Budget(2 * ((frame.bytes.len() as u64 - table) / 8) + 64)
    }

    /// More than any reading may cost.
    pub(crate) fn endless() -> Budget
        ensures { result ≡ 2 ^ 64 - 1 }
    {
        Budget(u64::MAX)
    }

    /// What is left.
    pub(crate) fn left(&self) -> u64
        ensures { result ≡ self.now }
    {
        self.0
    }

    /// Sets what is left.
    pub(crate) fn set(&mut self, left: u64)
        ensures { self.new ≡ left }
    {
        self.0 = left;
    }
}

/// A file that holds a Cap'n Proto message, opened: its table of segments was read, and the
/// segments fill the rest of the file (Cap'n Proto encoding specification, "Serialization Over a
/// Stream"). A `Copy` value over the file's bytes.
#[derive(Clone, Copy)]
pub struct Frame<'a> {
    pub(crate) bytes: &'a [u8],
    ghost whole: { IsFrame bytes.now },
}

/// The fault of this rule at word 0 of segment 0.
fn in_file(rule: FrameRule) -> FrameFault
    ensures rule { result.rule ≡ rule }
    ensures segment { result.segment ≡ 0 }
    ensures word { result.word ≡ 0 }
{
    FrameFault {
        rule,
        segment: 0,
        word: 0,
    }
}

impl<'a> Frame<'a> {
    ghost use Rattle.std.specs.Prelude.{Ok, Err};
    ghost use Rattle.ix_frame.specs.Objects.{blamed, has_root, root_of};
    ghost use Rattle.ix_frame.specs.Result.{Gives};
    ghost use Rattle.ix_frame.specs.Views.{segments_of, object_of};

    /// Opens a file's bytes, of which there are at most 2^30. Refused are, in this order: F1 for
    /// fewer than 4 bytes, F2 for more than 512 segments, F1 for a table that the end cuts, and F1
    /// for segments that end before the file's end or after it. The fault stands at word 0 of
    /// segment 0.
    #[tactic(auto, unfolding(crate::specs::Segments::segments))]
    pub fn open(bytes: &'a [u8]) -> Result<Frame<'a>, FrameFault>
        requires { length bytes.now ≤ 2 ^ 30 }
        ensures opened { IfOk result (λ frame. segments bytes.now ≡ Ok (segments_of frame)) }
        ensures refused { IfErr result (λ fault. blamed 0 0 (segments bytes.now) ≡ Err fault) }
    {
        if bytes.len() < 4 {
            return Err(in_file(FrameRule::F1));
        }
        let count = LittleEndian::read_u32(bytes) as usize + 1;
        if 512 < count {
            return Err(in_file(FrameRule::F2));
        }
        let table = 8 * (count / 2 + 1);
        if bytes.len() < table {
            return Err(in_file(FrameRule::F1));
        }
        let words = sum_of_table(&bytes[4..], count);
        if bytes.len() as u64 == table as u64 + 8 * words {
            Ok(Frame { bytes })
        } else {
            Err(in_file(FrameRule::F1))
        }
    }

    /// Whether the root pointer, which is word 0 of segment 0, is there and isn't zero.
    #[tactic(auto, unfolding(crate::specs::Objects::has_root))]
    pub fn has_root(&self) -> bool
        ensures { result ≡ has_root (segments_of self.now) }
    {
        match Segment::of(self, 0) {
            Some(segment) => segment.has(0, 1) && segment.word(0) != 0,
            None => false,
        }
    }

    /// The struct that the root pointer leads to, which is word 0 of segment 0; a struct without
    /// words where it is zero. Its words, at least 1, are taken from the budget, and nothing for
    /// the default. Else the first of F5, F4, F3 (also where segment 0 has no word) and F7, at word
    /// 0 of segment 0, and the budget is as before.
    #[tactic(auto, unfolding(crate::specs::Objects::root_of))]
    pub fn root(&self, budget: &mut Budget) -> Result<Obj<'a>, FrameFault>
        ensures exact { Gives object_of result budget.old budget.new
            (root_of (segments_of self.now) budget.old) }
        ensures left { budget.new ≤ budget.old }
    {
        let Some(segment) = Segment::of(self, 0) else {
            return Err(in_file(FrameRule::F3));
        };
        if segment.has(0, 1) {
            struct_behind(&segment, 0, budget)
        } else {
            Err(in_file(FrameRule::F3))
        }
    }
}
