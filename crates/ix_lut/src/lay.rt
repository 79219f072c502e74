//! How an assignment lays a cell on its BEL, and what it leaves to tie.

ghost use Rattle.std.specs.Prelude.{◌≡◌, ℕ, ◌+◌, ◌^◌, ◌<◌, ◌≤◌, ◌≢◌, Contains, true, false};
ghost use Rattle.std.specs.Prelude.{length, take, slice_index, slice_index_or};
ghost use Rattle.ix_lut.specs.Places.{LineNumber};
ghost use Rattle.ix_lut.specs.Shapes.{IsUsableBel, input_lines, held_by};
ghost use Rattle.ix_lut.specs.Items.{item_at, number_in};
ghost use Rattle.ix_lut.specs.Plans.{place_in, places_on, constant_on};
ghost use Rattle.ix_lut.specs.Ties.{constant_of};
ghost use Rattle.ix_lut.specs.Forcing.{IsReady};

use crate::forcing::Lut;
use crate::items::{item_of, number_of};
use crate::shape::{BelShape, Tie};
use crate::table::spread;
use crate::uses::{Item, LutUse};
use ix_num::NetRef;

/// The lines of a cell's inputs, where each item has a line.
pub(crate) fn lines_of(items: &[Item], lines: &[u32; 48], cell: &LutUse) -> [u32; 6]
    requires few { cell.now.table.inputs ≤ 6 }
    requires here { (i : ℕ) → i < cell.now.table.inputs →
        number_in items.now (item_at cell.now.nets i) < 48 }
    ensures { (i : ℕ) → i < cell.now.table.inputs →
        slice_index result i ≡ slice_index lines.now (number_in items.now
        (item_at cell.now.nets i)) }
{
    let mut chosen = [0; 6];
    for i in 0..cell.table.inputs as usize {
        let item = item_of(&cell.nets, i);
        chosen[i] = lines[number_of(items, &item)];
    }
    chosen
}

/// The place of a line among a BEL's, or their number where it isn't there.
fn place_among(lines: &[u32], line: u32) -> u32
    requires { length lines.now ≤ 6 }
    ensures { result ≡ place_in lines.now line }
{
    for (place, other) in lines.iter().enumerate() {
        if *other == line {
            return place as u32;
        }
    }
    lines.len() as u32
}

/// The places on the BEL of the cell's inputs on these lines.
fn places_for(bel: &BelShape, chosen: &[u32; 6], inputs: u32) -> [u32; 6]
    requires bel { IsUsableBel 12 bel.now }
    requires few { inputs ≤ 6 }
    ensures { take inputs result ≡ places_on (input_lines bel.now) chosen.now inputs }
{
    let mut places = [0; 6];
    for i in 0..inputs as usize {
        places[i] = place_among(&bel.lines[..bel.inputs as usize], chosen[i]);
    }
    places
}

/// A cell on its BEL, ready for its bits to be forced.
pub(crate) fn ready_lut(bel: &BelShape, cell: &LutUse, chosen: &[u32; 6]) -> Lut
    requires bel { IsUsableBel 12 bel.now }
    requires few { cell.now.table.inputs ≤ 6 }
    requires reached { (i : ℕ) → i < cell.now.table.inputs →
        Contains (input_lines bel.now) (slice_index chosen.now i) }
    ensures ready { IsReady result }
    ensures bel { result.bel ≡ bel.now }
    ensures table { result.table ≡ cell.now.table.bits }
    ensures places { take result.inputs result.places
        ≡ places_on (input_lines bel.now) chosen.now cell.now.table.inputs }
{
    let inputs = cell.table.inputs;
    let places = places_for(bel, chosen, inputs);
    let word = spread(cell.table.bits, &places[..inputs as usize], bel.inputs);
    Lut {
        bel: *bel,
        inputs,
        places,
        table: cell.table.bits,
        word,
    }
}

/// What a net holds a line at.
fn tie_of(net: &NetRef) -> Tie
    ensures { result ≡ constant_of net.now }
{
    match net {
        NetRef::Gnd => Tie::Gnd,
        NetRef::Vcc => Tie::Vcc,
        NetRef::Signal(_) => Tie::Free,
    }
}

/// What the nets of an element's items hold its lines at, and which of its lines have no item.
#[derive(Clone, Copy)]
pub(crate) struct Lines {
    pub(crate) held: [Tie; 12],
    pub(crate) tieable: [bool; 12],
}

/// The first `count` lines.
fn first_lines(count: u32) -> [bool; 12]
    requires { count ≤ 12 }
    ensures long { length result ≡ 12 }
    ensures only { (line : ℕ) → slice_index_or result line false ≡ true → line < count }
    ensures every { (line : ℕ) → line < count → slice_index_or result line false ≡ true }
{
    let mut lines = [false; 12];
    for line in 0..count as usize {
        lines[line] = true;
    }
    lines
}

/// What holds the lines of an element of `count` lines where each item has its line.
pub(crate) fn hold_lines(items: &[Item], lines: &[u32; 48], count: u32) -> Lines
    requires few { length items.now ≤ 48 }
    requires count { count ≤ 12 }
    requires inside { (x : ℕ) → x < length items.now → slice_index lines.now x < 12 }
    ensures held { (line : LineNumber) → held_by result.held line
        ≡ constant_on items.now (take (length items.now) lines.now) Tie.Free line }
    ensures inside { (line : LineNumber) → slice_index_or result.tieable line false ≡ true →
        line < count }
    ensures no_item { (line : LineNumber) → slice_index_or result.tieable line false ≡ true →
        (x : ℕ) → x < length items.now → slice_index lines.now x ≢ line }
    ensures every { (line : LineNumber) → line < count →
        ((x : ℕ) → x < length items.now → slice_index lines.now x ≢ line) →
        slice_index_or result.tieable line false ≡ true }
{
    let mut held = [Tie::Free; 12];
    let mut tieable = first_lines(count);
    let mut x = items.len();
    while x > 0 {
        x -= 1;
        let line = lines[x] as usize;
        held[line] = tie_of(&items[x].net);
        tieable[line] = false;
    }
    Lines { held, tieable }
}
