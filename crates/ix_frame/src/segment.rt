//! A segment of an opened file.

ghost use Rattle.ix_frame.specs.Segments.{IsSegment};

use crate::frame::Frame;
use crate::table::{behind, part};
use byteorder::{ByteOrder, LittleEndian};

/// A segment of a file, with its bytes at hand.
#[derive(Clone, Copy)]
pub struct Segment<'a> {
    pub frame: Frame<'a>,
    pub number: u32,
    pub bytes: &'a [u8],
    ghost here: { IsSegment frame.bytes.now number bytes.now },
}

impl<'a> Segment<'a> {
    ghost use Rattle.std.specs.Prelude.{◌≡◌, ◌+◌, ◌*◌, ◌≤◌, false, length, MatchOption};
    ghost use Rattle.ix_frame.specs.Segments.{segment_at, word_at, has_words};
    ghost use Rattle.ix_frame.specs.Views.{segments_of, all_of, IsIn, Holds};

    /// The segment with this number.
    pub fn of(frame: &Frame<'a>, number: u32) -> Option<Segment<'a>>
        ensures { MatchOption result (length (segments_of frame.now) ≤ number)
            (IsIn (segments_of frame.now) number) }
    {
        let last = LittleEndian::read_u32(frame.bytes);
        if last < number {
            return None;
        }
        let count = last + 1;
        let table = behind(frame.bytes, 4);
        let rest = behind(frame.bytes, 8 * (count as usize / 2 + 1));
        let bytes = part(table, rest, count, number);
        Some(Segment {
            frame: *frame,
            number,
            bytes,
        })
    }

    /// The segment with this number in the same file.
    pub fn other(&self, number: u32) -> Option<Segment<'a>>
        ensures { MatchOption result (length (all_of self.now) ≤ number)
            (IsIn (all_of self.now) number) }
    {
        if number == self.number {
            Some(*self)
        } else {
            Segment::of(&self.frame, number)
        }
    }

    /// Whether these words lie in the segment.
    pub fn has(&self, start: u32, words: u32) -> bool
        ensures { result ≡ has_words (all_of self.now) self.now.number start words }
    {
        8 * (start as u64 + words as u64) <= self.bytes.len() as u64
    }

    /// The segment with this number in the same file, where these words lie in it.
    pub fn holding(&self, number: u32, start: u32, words: u32) -> Option<Segment<'a>>
        ensures { MatchOption result (has_words (all_of self.now) number start words
            ≡ false) (Holds (all_of self.now) number start words) }
    {
        let segment = self.other(number)?;
        if segment.has(start, words) {
            Some(segment)
        } else {
            None
        }
    }

    /// The word at this place.
    pub fn word(&self, at: u32) -> u64
        requires { 8 * (at + 1) ≤ length self.now.bytes.now }
        ensures { result ≡ word_at (segment_at (all_of self.now) self.now.number) at }
    {
        LittleEndian::read_u64(behind(self.bytes, 8 * at as usize))
    }
}
