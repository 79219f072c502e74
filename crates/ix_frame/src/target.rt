//! What a pointer leads to, before the object's kind and size are asked.

ghost use Rattle.std.specs.Prelude.{◌≡◌, ◌+◌, ◌*◌, ◌<◌, ◌≤◌, ◌^◌, length, IfOk};
ghost use Rattle.std.specs.Option.{option_map};
ghost use Rattle.ix_frame.specs.Result.{Finds};
ghost use Rattle.ix_frame.specs.Target.{offset_from, near, through_one_word, through_two_words};
ghost use Rattle.ix_frame.specs.Target.{target, placed};
ghost use Rattle.ix_frame.specs.Views.{all_of, aim_of, IsPlace};

use crate::segment::Segment;
use ix_num::FrameRule;

/// What a pointer leads to: the word that describes the object, its segment, and the word at which
/// it begins, none where that is before the segment.
#[derive(Clone, Copy)]
pub struct Aim {
    pub described: u64,
    pub segment: u32,
    pub start: Option<u32>,
}

/// A word of a segment.
#[derive(Clone, Copy)]
pub struct Place<'a> {
    pub segment: Segment<'a>,
    pub start: u32,
}

/// The word at a signed distance of 30 bits from another.
fn at_offset(base: u32, offset: u32) -> Option<u32>
    requires base { base < 2 ^ 30 }
    requires offset { offset < 2 ^ 30 }
    ensures { result ≡ offset_from base offset }
{
    if offset < 0x2000_0000 {
        Some(base + offset)
    } else if 0x4000_0000 <= base + offset {
        Some(base + offset - 0x4000_0000)
    } else {
        None
    }
}

/// What a word of kind 0 or 1 leads to, which stands at this word of this segment.
fn aim_near(segment: u32, word: u32, described: u64) -> Aim
    requires { word < 2 ^ 29 }
    ensures { aim_of result ≡ near segment word described }
{
    let offset = (described / 4 % 0x4000_0000) as u32;
    Aim {
        described,
        segment,
        start: at_offset(word + 1, offset),
    }
}

/// What a pad of one word leads to. F3 where it isn't there, F5 for a pad of kind 3, F4 for another
/// far pointer.
#[tactic(auto, unfolding(crate::specs::Target::through_one_word))]
fn aim_through_one(from: &Segment<'_>, number: u32, word: u32) -> Result<Option<Aim>, FrameRule>
    requires { word < 2 ^ 29 }
    ensures { Finds (option_map aim_of) result (through_one_word (all_of from.now) number word) }
{
    let Some(segment) = from.holding(number, word, 1) else {
        return Err(FrameRule::F3);
    };
    let pad = segment.word(word);
    if 3 <= pad % 4 {
        return Err(FrameRule::F5);
    }
    if 2 <= pad % 4 {
        return Err(FrameRule::F4);
    }
    if pad == 0 {
        return Ok(None);
    }
    Ok(Some(aim_near(number, word, pad)))
}

/// What a pad of two words leads to. F3 where it isn't there, F4 unless it is a far pointer with
/// bit 2 clear and a tag of kind 0 or 1.
#[tactic(auto, unfolding(crate::specs::Target::through_two_words))]
fn aim_through_two(from: &Segment<'_>, number: u32, word: u32) -> Result<Option<Aim>, FrameRule>
    requires { word < 2 ^ 29 }
    ensures { Finds (option_map aim_of) result (through_two_words (all_of from.now) number word) }
{
    let Some(segment) = from.holding(number, word, 2) else {
        return Err(FrameRule::F3);
    };
    let pad = segment.word(word);
    let tag = segment.word(word + 1);
    if pad % 4 != 2 {
        return Err(FrameRule::F4);
    }
    if pad / 4 % 2 != 0 {
        return Err(FrameRule::F4);
    }
    if 2 <= tag % 4 {
        return Err(FrameRule::F4);
    }
    Ok(Some(Aim {
        described: tag,
        segment: (pad / 0x1_0000_0000) as u32,
        start: Some((pad / 8 % 0x2000_0000) as u32),
    }))
}

/// What the pointer at this word leads to, none where it is the default. F5 for a pointer of kind
/// 3, and the faults of a pad.
#[tactic(auto, unfolding(crate::specs::Target::target))]
pub fn aim_at(from: &Segment<'_>, word: u32) -> Result<Option<Aim>, FrameRule>
    requires { 8 * (word + 1) ≤ length from.now.bytes.now }
    ensures { Finds (option_map aim_of) result (target (all_of from.now) from.now.number word) }
{
    let pointer = from.word(word);
    if pointer == 0 {
        return Ok(None);
    }
    if pointer % 4 < 2 {
        return Ok(Some(aim_near(from.number, word, pointer)));
    }
    if pointer % 4 == 3 {
        return Err(FrameRule::F5);
    }
    let pad_segment = (pointer / 0x1_0000_0000) as u32;
    let pad_word = (pointer / 8 % 0x2000_0000) as u32;
    if pointer / 4 % 2 == 1 {
        aim_through_two(from, pad_segment, pad_word)
    } else {
        aim_through_one(from, pad_segment, pad_word)
    }
}

/// Where so many words of the object begin. F3 unless all of them lie in its segment.
#[tactic(auto, unfolding(crate::specs::Target::placed))]
pub fn place_at<'a>(from: &Segment<'a>, aim: &Aim, words: u32) -> Result<Place<'a>, FrameRule>
    ensures start { Finds (λ p. p.start) result (placed (all_of from.now) (aim_of aim.now) words) }
    ensures inside { IfOk result (IsPlace (all_of from.now) aim.now.segment words) }
{
    let Some(start) = aim.start else {
        return Err(FrameRule::F3);
    };
    match from.holding(aim.segment, start, words) {
        Some(segment) => Ok(Place { segment, start }),
        None => Err(FrameRule::F3),
    }
}
