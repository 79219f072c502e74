//! Following a pointer to an object of each kind, with what is left of the budget.

ghost use Rattle.std.specs.Prelude.{◌≡◌, ◌+◌, ◌*◌, ◌<◌, ◌≤◌, ◌^◌, length, IfOk, MatchOption, Some};
ghost use Rattle.std.specs.Prelude.{true, false};
ghost use Rattle.std.specs.Str.{is_utf8};
ghost use Rattle.ix_frame.specs.Result.{Finds, Gives};
ghost use Rattle.ix_frame.specs.Target.{struct_target, list_target, composite_target, list_words};
ghost use Rattle.ix_frame.specs.Objects.{charged, composite_cost, no_struct, no_elements, bytes_of};
ghost use Rattle.ix_frame.specs.Objects.{text_of, struct_from, struct_behind, elements_from};
ghost use Rattle.ix_frame.specs.Objects.{elements_behind, list_from, list_behind, list_found};
ghost use Rattle.ix_frame.specs.Objects.{text_from, text_behind};
ghost use Rattle.ix_frame.specs.Views.{all_of, aim_of, object_of, elements_of, run_of, IsRun};

use crate::frame::Budget;
use crate::list::List;
use crate::object::Obj;
use crate::segment::Segment;
use crate::table::{behind, front};
use crate::target::{Aim, aim_at, place_at};
use ix_num::{FrameFault, FrameRule};

/// A list of bytes, of numbers or of pointers, which stand one after another.
#[derive(Clone, Copy)]
pub struct Run<'a> {
    pub segment: Segment<'a>,
    pub start: u32,
    pub count: u32,
}

/// The default of a struct field: a struct without words.
pub fn no_struct<'a>(from: &Segment<'a>) -> Obj<'a>
    ensures { object_of result ≡ no_struct (all_of from.now) }
{
    match from.other(0) {
        Some(segment) => Obj {
            segment,
            start: 0,
            data_words: 0,
            pointer_words: 0,
        },
        None => unreachable!(),
    }
}

/// What is left of a budget after an object of this cost. F7 where there is too little.
fn charge(cost: u64, budget: u64) -> Result<u64, FrameRule>
    ensures exact { Finds (λ left. left) result (charged cost budget) }
    ensures taken { IfOk result (λ left. left + cost ≡ budget) }
{
    if cost <= budget {
        Ok(budget - cost)
    } else {
        Err(FrameRule::F7)
    }
}

/// The struct that is meant, with the words that it takes. F4 for another kind, F3 where it isn't
/// in its segment.
#[tactic(auto, unfolding(crate::specs::Target::struct_target))]
fn struct_of<'a>(from: &Segment<'a>, aim: &Aim) -> Result<(Obj<'a>, u32), FrameRule>
    ensures { Finds (λ x. (object_of x.0, x.1)) result
        (struct_target (all_of from.now) (aim_of aim.now)) }
{
    let described = aim.described;
    if described % 4 != 0 {
        return Err(FrameRule::F4);
    }
    let data_words = (described / 0x1_0000_0000 % 0x1_0000) as u16;
    let pointer_words = (described / 0x1_0000_0000_0000) as u16;
    let words = data_words as u32 + pointer_words as u32;
    let place = place_at(from, aim, words)?;
    let object = Obj {
        segment: place.segment,
        start: place.start,
        data_words,
        pointer_words,
    };
    Ok((object, words))
}

/// The struct behind a pointer, and what is left of the budget.
#[tactic(auto, unfolding(crate::specs::Objects::struct_found))]
fn struct_from<'a>(from: &Segment<'a>, word: u32, budget: u64) -> Result<(Obj<'a>, u64), FrameRule>
    requires { 8 * (word + 1) ≤ length from.now.bytes.now }
    ensures exact { Finds (λ x. (object_of x.0, x.1)) result
        (struct_from (all_of from.now) from.now.number word budget) }
    ensures left { IfOk result (λ x. x.1 ≤ budget) }
{
    let Some(aim) = aim_at(from, word)? else {
        return Ok((no_struct(from), budget));
    };
    let (object, words) = struct_of(from, &aim)?;
    let left = charge(words.max(1) as u64, budget)?;
    Ok((object, left))
}

/// The struct behind a pointer. Its cost is taken from the budget, unless there is a fault.
#[tactic(auto, unfolding(crate::specs::Objects::struct_behind))]
pub fn struct_behind<'a>(
    from: &Segment<'a>,
    word: u32,
    budget: &mut Budget,
) -> Result<Obj<'a>, FrameFault>
    requires { 8 * (word + 1) ≤ length from.now.bytes.now }
    ensures exact { Gives object_of result budget.old budget.new
        (struct_behind (all_of from.now) from.now.number word budget.old) }
    ensures left { budget.new ≤ budget.old }
{
    match struct_from(from, word, budget.left()) {
        Ok((object, left)) => {
            budget.set(left);
            Ok(object)
        }
        Err(rule) => Err(FrameFault {
            rule,
            segment: from.number,
            word,
        }),
    }
}

/// The default of a field of structs: a list of nothing.
pub fn no_elements<'a>(from: &Segment<'a>) -> List<'a>
    ensures default { elements_of result ≡ no_elements (all_of from.now) }
    ensures empty { result.count ≡ 0 }
{
    match from.other(0) {
        Some(segment) => List {
            segment,
            start: 0,
            count: 0,
            data_words: 0,
            pointer_words: 0,
        },
        None => unreachable!(),
    }
}

/// The list of structs that is meant, with the words that it takes. F4 for another kind or element
/// size, F3 where it isn't in its segment, F8 for a tag that isn't of struct form or elements that
/// pass the list's words.
#[tactic(auto, unfolding(crate::specs::Target::composite_target))]
fn elements_of<'a>(from: &Segment<'a>, aim: &Aim) -> Result<(List<'a>, u32), FrameRule>
    ensures exact { Finds (λ x. (elements_of x.0, x.1)) result
        (composite_target (all_of from.now) (aim_of aim.now)) }
    ensures inside { IfOk result (λ x. x.0.count * (x.0.data_words + x.0.pointer_words) ≤ x.1) }
{
    let described = aim.described;
    if described % 4 != 1 {
        return Err(FrameRule::F4);
    }
    if described / 0x1_0000_0000 % 8 != 7 {
        return Err(FrameRule::F4);
    }
    let words = (described / 0x8_0000_0000) as u32;
    let place = place_at(from, aim, words + 1)?;
    let tag = place.segment.word(place.start);
    if tag % 4 != 0 {
        return Err(FrameRule::F8);
    }
    let count = (tag / 4 % 0x4000_0000) as u32;
    let data_words = (tag / 0x1_0000_0000 % 0x1_0000) as u16;
    let pointer_words = (tag / 0x1_0000_0000_0000) as u16;
    if (words as u64) < count as u64 * (data_words as u64 + pointer_words as u64) {
        return Err(FrameRule::F8);
    }
    let list = List {
        segment: place.segment,
        start: place.start + 1,
        count,
        data_words,
        pointer_words,
    };
    Ok((list, words))
}

/// What a list of structs costs: its tag, its words, and its count where its elements have no word.
fn elements_cost(list: &List<'_>, words: u32) -> u64
    requires { list.now.count * (list.now.data_words + list.now.pointer_words) ≤ words }
    ensures exact { result ≡ composite_cost (elements_of list.now) words }
    ensures each { list.now.count ≤ result }
{
    let count = if list.data_words as u32 + list.pointer_words as u32 == 0 {
        list.count
    } else {
        0
    };
    1 + words as u64 + count as u64
}

/// The list of structs behind a pointer, and what is left of the budget.
#[tactic(auto, unfolding(crate::specs::Objects::elements_found))]
fn elements_from<'a>(
    from: &Segment<'a>,
    word: u32,
    budget: u64,
) -> Result<(List<'a>, u64), FrameRule>
    requires { 8 * (word + 1) ≤ length from.now.bytes.now }
    ensures exact { Finds (λ x. (elements_of x.0, x.1)) result
        (elements_from (all_of from.now) from.now.number word budget) }
    ensures count { IfOk result (λ x. x.0.count + x.1 ≤ budget) }
{
    let Some(aim) = aim_at(from, word)? else {
        return Ok((no_elements(from), budget));
    };
    let (list, words) = elements_of(from, &aim)?;
    let left = charge(elements_cost(&list, words), budget)?;
    Ok((list, left))
}

/// The list of structs behind a pointer. Its cost is taken from the budget, unless there is a
/// fault.
#[tactic(auto, unfolding(crate::specs::Objects::elements_behind))]
pub fn elements_behind<'a>(
    from: &Segment<'a>,
    word: u32,
    budget: &mut Budget,
) -> Result<List<'a>, FrameFault>
    requires { 8 * (word + 1) ≤ length from.now.bytes.now }
    ensures exact { Gives elements_of result budget.old budget.new
        (elements_behind (all_of from.now) from.now.number word budget.old) }
    ensures left { budget.new ≤ budget.old }
    ensures count { IfOk result (λ l. l.count + budget.new ≤ budget.old) }
{
    match elements_from(from, word, budget.left()) {
        Ok((list, left)) => {
            budget.set(left);
            Ok(list)
        }
        Err(rule) => Err(FrameFault {
            rule,
            segment: from.number,
            word,
        }),
    }
}

/// The default of a field of bytes, numbers or texts: a list of nothing.
pub fn no_run<'a>(from: &Segment<'a>) -> Run<'a>
    ensures default { run_of result ≡ no_elements (all_of from.now) }
    ensures empty { result.count ≡ 0 }
    ensures start { result.start ≡ 0 }
{
    match from.other(0) {
        Some(segment) => Run {
            segment,
            start: 0,
            count: 0,
        },
        None => unreachable!(),
    }
}

/// How many words so many elements of this size take: bytes (2), numbers (4), pointers (6).
fn run_words(size: u32, count: u32) -> u32
    requires { count < 2 ^ 29 }
    ensures { result ≡ list_words size count }
{
    if size == 2 {
        (count + 7) / 8
    } else if size == 4 {
        (count + 1) / 2
    } else {
        count
    }
}

/// The list of this element size that is meant, with the words that it takes. F4 for another kind
/// or element size, F3 where it isn't in its segment.
#[tactic(auto, unfolding(crate::specs::Target::list_target))]
fn run_at<'a>(size: u32, from: &Segment<'a>, aim: &Aim) -> Result<(Run<'a>, u32), FrameRule>
    ensures exact { Finds (λ x. (run_of x.0, x.1)) result
        (list_target size (all_of from.now) (aim_of aim.now)) }
    ensures words { IfOk result (λ x. x.1 ≡ list_words size x.0.count) }
    ensures inside { IfOk result (λ x. IsRun size x.0) }
{
    let described = aim.described;
    if described % 4 != 1 {
        return Err(FrameRule::F4);
    }
    if (described / 0x1_0000_0000 % 8) as u32 != size {
        return Err(FrameRule::F4);
    }
    let count = (described / 0x8_0000_0000) as u32;
    let words = run_words(size, count);
    let place = place_at(from, aim, words)?;
    let run = Run {
        segment: place.segment,
        start: place.start,
        count,
    };
    Ok((run, words))
}

/// The list of this element size that is meant, and what is left of the budget.
#[tactic(auto, unfolding(crate::specs::Objects::list_found))]
fn run_found<'a>(
    size: u32,
    from: &Segment<'a>,
    aim: &Aim,
    budget: u64,
) -> Result<(Run<'a>, u64), FrameRule>
    ensures exact { Finds (λ x. (run_of x.0, x.1)) result
        (list_found size (all_of from.now) budget (Some (aim_of aim.now))) }
    ensures words { IfOk result (λ x. list_words size x.0.count + x.1 ≤ budget) }
    ensures inside { IfOk result (λ x. IsRun size x.0) }
{
    let (run, words) = run_at(size, from, aim)?;
    let left = charge(words.max(1) as u64, budget)?;
    Ok((run, left))
}

/// The list of this element size behind a pointer, and what is left of the budget.
#[tactic(auto, unfolding(crate::specs::Objects::list_found))]
fn run_from<'a>(
    size: u32,
    from: &Segment<'a>,
    word: u32,
    budget: u64,
) -> Result<(Run<'a>, u64), FrameRule>
    requires { 8 * (word + 1) ≤ length from.now.bytes.now }
    ensures exact { Finds (λ x. (run_of x.0, x.1)) result
        (list_from size (all_of from.now) from.now.number word budget) }
    ensures words { IfOk result (λ x. list_words size x.0.count + x.1 ≤ budget) }
    ensures inside { IfOk result (λ x. IsRun size x.0) }
{
    let Some(aim) = aim_at(from, word)? else {
        return Ok((no_run(from), budget));
    };
    run_found(size, from, &aim, budget)
}

/// The list of this element size behind a pointer. Its cost is taken from the budget, unless there
/// is a fault.
#[tactic(auto, unfolding(crate::specs::Objects::list_behind))]
pub fn run_behind<'a>(
    size: u32,
    from: &Segment<'a>,
    word: u32,
    budget: &mut Budget,
) -> Result<Run<'a>, FrameFault>
    requires { 8 * (word + 1) ≤ length from.now.bytes.now }
    ensures exact { Gives run_of result budget.old budget.new
        (list_behind size (all_of from.now) from.now.number word budget.old) }
    ensures left { budget.new ≤ budget.old }
    ensures words { IfOk result (λ l. list_words size l.count + budget.new ≤ budget.old) }
    ensures inside { IfOk result (IsRun size) }
{
    match run_from(size, from, word, budget.left()) {
        Ok((run, left)) => {
            budget.set(left);
            Ok(run)
        }
        Err(rule) => Err(FrameFault {
            rule,
            segment: from.number,
            word,
        }),
    }
}

/// The bytes of a list of bytes.
fn run_bytes<'a>(run: &Run<'a>) -> &'a [u8]
    requires { IsRun 2 run.now }
    ensures exact { result.now ≡ bytes_of (run_of run.now) }
    ensures count { length result.now ≡ run.now.count }
{
    front(
        behind(run.segment.bytes, 8 * run.start as usize),
        run.count as usize,
    )
}

/// The text that the bytes are, where they are UTF-8.
fn spelled(bytes: &[u8]) -> Option<&str>
    ensures { MatchOption result (is_utf8 bytes.now ≡ false) (λ text. (is_utf8 bytes.now ≡ true)
        × (text.now ≡ bytes.now)) }
{
    match str::from_utf8(bytes) {
        Ok(text) => Some(text),
        Err(_) => None,
    }
}

/// The text that the bytes are, without the NUL at its end. F6 where they don't end with one, or
/// what stands before it isn't UTF-8.
#[tactic(auto, unfolding(crate::specs::Objects::text_of))]
fn text_of(bytes: &[u8]) -> Result<&str, FrameRule>
    ensures exact { Finds (λ text. text.now) result (text_of bytes.now) }
    ensures short { IfOk result (λ text. length text.now ≤ length bytes.now) }
{
    if bytes.is_empty() {
        return Err(FrameRule::F6);
    }
    let last = bytes.len() - 1;
    if bytes[last] != 0 {
        return Err(FrameRule::F6);
    }
    match spelled(front(bytes, last)) {
        Some(text) => Ok(text),
        None => Err(FrameRule::F6),
    }
}

/// The text behind a pointer, and what is left of the budget.
#[tactic(auto, unfolding(crate::specs::Objects::text_found))]
fn text_from<'a>(from: &Segment<'a>, word: u32, budget: u64) -> Result<(&'a str, u64), FrameRule>
    requires { 8 * (word + 1) ≤ length from.now.bytes.now }
    ensures exact { Finds (λ x. (x.0.now, x.1)) result
        (text_from (all_of from.now) from.now.number word budget) }
    ensures left { IfOk result (λ x. x.1 ≤ budget) }
    ensures short { IfOk result (λ x. length x.0.now + 8 * x.1 ≤ 8 * budget) }
{
    let Some(aim) = aim_at(from, word)? else {
        return Ok(("", budget));
    };
    let (run, left) = run_found(2, from, &aim, budget)?;
    let text = text_of(run_bytes(&run))?;
    Ok((text, left))
}

/// The text behind a pointer. Its cost is taken from the budget, unless there is a fault.
#[tactic(auto, unfolding(crate::specs::Objects::text_behind))]
pub fn text_behind<'a>(
    from: &Segment<'a>,
    word: u32,
    budget: &mut Budget,
) -> Result<&'a str, FrameFault>
    requires { 8 * (word + 1) ≤ length from.now.bytes.now }
    ensures exact { Gives (λ text. text.now) result budget.old budget.new
        (text_behind (all_of from.now) from.now.number word budget.old) }
    ensures left { budget.new ≤ budget.old }
    ensures short { IfOk result (λ text. length text.now + 8 * budget.new ≤ 8 * budget.old) }
{
    match text_from(from, word, budget.left()) {
        Ok((text, left)) => {
            budget.set(left);
            Ok(text)
        }
        Err(rule) => Err(FrameFault {
            rule,
            segment: from.number,
            word,
        }),
    }
}
