//! Want of memory, and the faults of a frame.

ghost use Rattle.std.specs.Prelude.{◌≡◌};

use std::alloc::{AllocError, AllocFailed};
use thiserror::Error;

/// Want of memory: the one answer that a call may give at any time, where it takes an allocator or
/// is documented as growing.
#[derive(Clone, Copy, Debug, PartialEq, Eq, Error)]
#[error("out of memory")]
pub struct Memory;

impl From<AllocError> for Memory {
    fn from(_error: AllocError) -> Memory {
        Memory
    }
}

impl<T: Drop> From<AllocFailed<T>> for Memory {
    fn from(_error: AllocFailed<T>) -> Memory {
        Memory
    }
}

/// The rule that a Cap'n Proto frame breaks. The rules are those of the Cap'n Proto encoding
/// specification (stream framing, and pointers), with limits of this project.
#[derive(Clone, Copy, Debug, PartialEq, Eq)]
pub enum FrameRule {
    /// Fewer than 4 bytes, a segment table that is cut, or a length that isn't the table's.
    F1,
    /// More than 512 segments.
    F2,
    /// A pointer, pad or object outside its segment, or a segment that isn't there.
    F3,
    /// A pointer of another kind or element size than its field has, or a malformed pad.
    F4,
    /// A capability, or another pointer of kind 3.
    F5,
    /// A text without a final NUL, or not UTF-8 before it.
    F6,
    /// The objects read cost more than twice the message's words plus 64.
    F7,
    /// A composite list whose tag isn't of struct form, or whose elements pass its words.
    F8,
}

/// The first fault of a frame, and where it stands.
#[derive(Clone, Copy, Debug, PartialEq, Eq, Error)]
#[error("{rule:?} at word {segment}:{word}")]
pub struct FrameFault {
    /// The rule.
    pub rule: FrameRule,
    /// The segment of the pointer at which the rule breaks; 0 for F1 and F2.
    pub segment: u32,
    /// The pointer's word in its segment; 0 for F1 and F2.
    pub word: u32,
}
