//! The keys of LUT tables.

ghost use Rattle.std.specs.Prelude.{◌≡◌, ◌≢◌, ◌∷◌, ◌++◌, ◌<◌, ◌^◌, ℕ, MatchOption, IfSome};
ghost use Rattle.std.specs.Bool.{Decides};
ghost use Rattle.std.specs.Fmt.{decimal};
ghost use Rattle.ix_message.specs.Shape.{Text};
ghost use Rattle.ix_walk.specs.Marks.{AreNamesOf};
ghost use Rattle.ix_named_there.specs.Keys.{BeginPlainly, HasNoSlash, NamesElement, slash};
ghost use Rattle.ix_named_there.specs.Parts.{site_of};

use ix_device::Device;
use ix_rec::Phys;
use ix_strings::Names;
use ix_walk::{NameMarks, site_type_at};

// What stands before and behind the last slash.
fn at_last_slash(text: &str) -> Option<(&str, &str)>
    ensures { MatchOption result ((front back : Text) → text.now ≢ front ++ slash ∷ back)
        (λ parts. (text.now ≡ parts.0.now ++ slash ∷ parts.1.now) × HasNoSlash parts.1.now) }
{
    text.rsplit_once('/')
}

// Whether digits begin as those of a number that is written do: without a sign, and with a zero
// only where nothing comes behind it.
fn begin_plainly(digits: &[u8]) -> bool
    ensures { Decides result (BeginPlainly digits.now) }
{
    if digits.is_empty() {
        return true;
    }
    digits[0] != b'+' && (digits[0] != b'0' || digits.len() == 1)
}

// The number that is written so.
fn number_of(digits: &str) -> Option<u32>
    ensures number { MatchOption result ((n : ℕ) → n < 2 ^ 32 → digits.now ≢ decimal n)
        (λ n. digits.now ≡ decimal n) }
    ensures below { IfSome result (λ n. n < 2 ^ 32) }
{
    if !begin_plainly(digits.as_bytes()) {
        return None;
    }
    match digits.parse::<u32>() {
        Ok(number) => Some(number),
        Err(_) => None,
    }
}

/// Whether a text, which stands behind `TABLE/`, names the site of an instance and an element of
/// that site's own type. The sites of instances are marked.
pub(crate) fn names_element(
    device: &Device,
    phys: &Phys,
    names: &Names,
    sites: &NameMarks,
    text: &str,
) -> bool
    requires { AreNamesOf site_of phys.now.site_insts sites.now }
    ensures { Decides result (NamesElement names.now device.now phys.now text.now) }
{
    let Some((site, digits)) = at_last_slash(text) else {
        return false;
    };
    let Some(site) = names.find(site) else {
        return false;
    };
    if !sites.has(site) {
        return false;
    }
    let Some(t) = site_type_at(device, site) else {
        return false;
    };
    let count = device.elements(t);
    match number_of(digits) {
        Some(element) => element < count,
        None => false,
    }
}
