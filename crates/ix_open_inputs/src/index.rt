//! The bit of a port that a text writes.

ghost use Rattle.std.specs.Prelude.{◌≡◌, ◌≢◌, ◌<◌, ◌≤◌, ◌^◌, ℕ, List, [], ◌∷◌, ◌++◌, length};
ghost use Rattle.std.specs.Prelude.{IfOk, MatchOption};
ghost use Rattle.ix_open_inputs.specs.Spelling.{bit_written, IsBusIndexIn, IsIndexIn};
ghost use Rattle.ix_open_inputs.specs.Spelling.{IsNumberOf};
ghost use Rattle.ix_hierarchy.specs.Hierarchy.{width as width_seen};

use ix_hierarchy::width;
use ix_num::{Memory, NameId};
use ix_rec::{Port, PortKind};
use ix_strings::Names;
use std::alloc::Global;

// What stands behind a name.
fn after_name<'a>(text: &'a str, name: &str) -> Option<&'a str>
    ensures { MatchOption result ((rest : List ℕ) → text.now ≢ name.now ++ rest)
        (λ rest. text.now ≡ name.now ++ rest.now) }
{
    text.strip_prefix(name)
}

// What stands behind an opening bracket.
fn after_bracket(text: &str) -> Option<&str>
    ensures { MatchOption result ((rest : List ℕ) → text.now ≢ 91 ∷ rest)
        (λ rest. text.now ≡ 91 ∷ rest.now) }
{
    text.strip_prefix('[')
}

// What stands before a closing bracket.
fn before_bracket(text: &str) -> Option<&str>
    ensures { MatchOption result ((front : List ℕ) → text.now ≢ front ++ 93 ∷ [])
        (λ front. text.now ≡ front.now ++ 93 ∷ []) }
{
    text.strip_suffix(']')
}

// What stands in the brackets of a bus bit's text, where the bus has this name.
fn digits_of<'a>(text: &'a str, name: &str) -> Option<&'a str>
    ensures { MatchOption result ((digits : List ℕ) → text.now ≢ bit_written name.now digits)
        (λ digits. text.now ≡ bit_written name.now digits.now) }
{
    let Some(behind) = after_name(text, name) else {
        return None;
    };
    let Some(inner) = after_bracket(behind) else {
        return None;
    };
    before_bracket(inner)
}

// The number that is written so, without a needless zero or a sign before it.
fn number_of(alloc: Global, digits: &str) -> Result<Option<u32>, Memory>
    ensures { IfOk result (IsNumberOf digits.now) }
{
    let Ok(number) = digits.parse::<u32>() else {
        return Ok(None);
    };
    let mut written = String::new(alloc);
    write!(written, "{number}")?;
    if written.as_str() == digits {
        Ok(Some(number))
    } else {
        Ok(None)
    }
}

// The index of a bus' bit that is written so.
fn index_of_bus(
    alloc: Global,
    names: &Names,
    port: &Port,
    text: &str,
) -> Result<Option<u32>, Memory>
    requires named { port.now.name < length names.now }
    ensures index { IfOk result (IsBusIndexIn names.now port.now text.now) }
    ensures few { width_seen port.now ≤ 2 ^ 32 }
{
    let bits = width(port);
    let Some(digits) = digits_of(text, names.name(port.name)) else {
        return Ok(None);
    };
    match number_of(alloc, digits)? {
        Some(index) => {
            if u64::from(index) < bits {
                Ok(Some(index))
            } else {
                Ok(None)
            }
        }
        None => Ok(None),
    }
}

/// The index of a port's bit whose written name is this one; none exactly where no bit is written
/// so.
pub(crate) fn index_in(
    alloc: Global,
    names: &Names,
    port: &Port,
    name: NameId,
) -> Result<Option<u32>, Memory>
    requires port { port.now.name < length names.now }
    requires name { name < length names.now }
    ensures index { IfOk result (IsIndexIn names.now port.now name) }
    ensures few { width_seen port.now ≤ 2 ^ 32 }
{
    match port.kind {
        PortKind::Bit => {
            let _count = names.len();
            if port.name == name {
                Ok(Some(0))
            } else {
                Ok(None)
            }
        }
        PortKind::Bus => index_of_bus(alloc, names, port, names.name(name)),
    }
}
