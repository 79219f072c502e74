//! The first of a LUT cell's inputs that are open.

ghost use Rattle.std.specs.Prelude.{◌≡◌, ◌≤◌, ◌<◌, ℕ, length, slice_index_or, slice_get, IfOk};
ghost use Rattle.std.specs.Prelude.{[], Some};
ghost use Rattle.std.specs.List.{AllByRecursion};
ghost use Rattle.ix_open_inputs.specs.Standings.{AnswersOpen};
ghost use Rattle.ix_open_inputs.specs.Places.{is_earlier, IsBetter, IsFirstStanding};

use crate::index::index_in;
use ix_num::{Memory, NameId};
use ix_rec::{Items, NetlistRec};
use ix_strings::Names;
use std::alloc::Global;

/// Where an input stands among the pins of a declaration: the place of a port and the index of its
/// bit. An input without a pin stands behind all ports, by its own number.
#[derive(Clone, Copy)]
pub struct Standing {
    pub place: usize,
    pub index: u32,
}

// Where an input with this number and this name stands first.
fn standing_of(
    alloc: Global,
    rec: &NetlistRec,
    names: &Names,
    ports: &Items<u32>,
    input: u32,
    name: NameId,
) -> Result<Standing, Memory>
    requires named { AllByRecursion (λ port. port.name < length names.now) rec.now.port_list }
    requires ports { AllByRecursion (λ port. port < length rec.now.port_list) ports.now }
    requires name { name < length names.now }
    ensures { IfOk result (IsFirstStanding names.now rec.now ports.now input
        (slice_index_or names.now name [])) }
{
    for place in 0..ports.len() {
        let port = rec.port_list.at(*ports.at(place) as usize);
        if let Some(index) = index_in(alloc, names, port, name)? {
            return Ok(Standing { place, index });
        }
    }
    Ok(Standing {
        place: ports.len(),
        index: input,
    })
}

// Whether one stands before another.
fn comes_before(one: Standing, other: Standing) -> bool
    ensures { result ≡ is_earlier one other }
{
    one.place < other.place || (one.place == other.place && one.index < other.index)
}

// An open input, and where it stands.
#[derive(Clone, Copy)]
pub struct Best {
    pub at: Standing,
    pub name: NameId,
}

// The one of two that stands first.
fn better(best: Option<Best>, other: Best) -> Best
    ensures { IsBetter best other result }
{
    match best {
        Some(best) => {
            if comes_before(other.at, best.at) {
                other
            } else {
                best
            }
        }
        None => other,
    }
}

/// The name of the first of a LUT type's inputs that are open, in the order of a declaration's
/// ports; those that it has no pin for come behind, in the order of the LUT type. None exactly
/// where
/// none is open.
///
/// # Errors
///
/// Want of memory.
pub fn first_open(
    alloc: Global,
    rec: &NetlistRec,
    names: &Names,
    ports: &Items<u32>,
    pins: &Items<NameId>,
    unjoined: &[bool],
) -> Result<Option<NameId>, Memory>
    requires named { AllByRecursion (λ port. port.name < length names.now) rec.now.port_list }
    requires ports { AllByRecursion (λ port. port < length rec.now.port_list) ports.now }
    requires pins { AllByRecursion (λ pin. pin < length names.now) pins.now }
    requires few { length pins.now ≤ length unjoined.now }
    requires most { length pins.now ≤ 6 }
    ensures { IfOk result (AnswersOpen names.now rec.now ports.now pins.now unjoined.now) }
{
    let mut best = None;
    for input in 0..pins.len() {
        if unjoined[input] {
            let name = *pins.at(input);
            let at = standing_of(alloc, rec, names, ports, input as u32, name)?;
            best = Some(better(best, Best { at, name }));
        }
    }
    match best {
        Some(best) => Ok(Some(best.name)),
        None => Ok(None),
    }
}
