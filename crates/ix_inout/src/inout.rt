//! The first place that breaks N8.

ghost use Rattle.std.specs.Prelude.{◌≡◌, ◌↔◌, ◌<◌, ◌≤◌, ℕ, IsTrue, MatchOption, Some, length};
ghost use Rattle.std.specs.Prelude.{slice_get};
ghost use Rattle.ix_hierarchy.specs.declared.row.Row.{Row};
ghost use Rattle.ix_hierarchy.specs.Hierarchy.{Path};
ghost use Rattle.ix_hierarchy.specs.Broken.{BreaksN8, NoneBreaks};
ghost use Rattle.ix_bit_rows.specs.Table.{IsCut};
ghost use Rattle.ix_joined.specs.Joining.{Known, IsJoined, AreTopBits};
ghost use Rattle.ix_inout.specs.Inout.{IsFirstInout};
ghost use Rattle.ix_inout.specs.Leaf.{NoInoutBit, IsFirstInoutBit, IsAtLeaf, HasInout};
ghost use Rattle.ix_inout.specs.Leaf.{NoneOfPort, IsFirstOfPort, IsFirstOfLeaf};

use ix_joined::{Joined, TopBit};
use ix_pins::{pin, pins};
use ix_rec::{Constants, Direction, NetlistRec};

// The net of the first bit of the top that goes both ways and is on a net.
fn first_inout_bit(bits: &[TopBit]) -> Option<u32>
    ensures { MatchOption result (NoInoutBit bits.now (length bits.now))
        (IsFirstInoutBit bits.now) }
{
    for bit in bits {
        if bit.dir == Direction::Inout && bit.net.is_some() {
            return bit.net;
        }
    }
    None
}

// The first place from `start` to `end`, where rows rise by port, that isn't before a port's rows.
fn from_port(joined: &Joined, start: usize, end: usize, port: u32) -> usize
    requires some { start ≤ end }
    requires to { end ≤ length joined.now.outer.rows }
    requires rise { (j k : ℕ) (a b : Row) → start ≤ j → j < k → k < end
        → slice_get joined.now.outer.rows j ≡ Some a
        → slice_get joined.now.outer.rows k ≡ Some b → a.port ≤ b.port }
    ensures { IsCut (λ row. row.port < port) (λ row. port ≤ row.port) joined.now.outer.rows start
        end result }
{
    let mut low = start;
    let mut high = end;
    while low < high {
        let middle = low + (high - low) / 2;
        if joined.outer.at(middle).port < port {
            low = middle + 1;
        } else {
            high = middle;
        }
    }
    low
}

// The net of the first pin of a leaf's port that goes both ways and is on one, by its index.
fn first_inout_of_port(
    rec: &NetlistRec,
    constants: &Option<Constants>,
    joined: &Joined,
    instance: u32,
    port: u32,
) -> Option<u32>
    requires leaf { (known : Known) × (path : Path)
        × IsAtLeaf known rec.now joined.now instance path }
    requires below { 0 < instance }
    requires port { port < length rec.now.port_list }
    ensures { (known : Known) (path : Path) → IsAtLeaf known rec.now joined.now instance path
        → constants.now ≡ known.device.constants
        → MatchOption result (NoneOfPort rec.now path port)
        (IsFirstOfPort known rec.now joined.now path port) }
{
    if rec.port_list.at(port as usize).dir != Direction::Inout {
        return None;
    }
    let (start, end) = pins(joined, instance);
    let place = from_port(joined, start, end, port);
    if place < end && joined.outer.at(place).port == port {
        Some(pin(rec, constants, joined, instance, place).net)
    } else {
        None
    }
}

// Whether a leaf has a pin that goes both ways and is on a net.
fn has_inout(rec: &NetlistRec, joined: &Joined, instance: u32) -> bool
    requires leaf { (known : Known) × (path : Path)
        × IsAtLeaf known rec.now joined.now instance path }
    requires below { 0 < instance }
    ensures { (known : Known) (path : Path) → IsAtLeaf known rec.now joined.now instance path
        → IsTrue result ↔ HasInout rec.now path }
{
    let (start, end) = pins(joined, instance);
    for place in start..end {
        let port = joined.outer.at(place).port;
        if rec.port_list.at(port as usize).dir == Direction::Inout {
            return true;
        }
    }
    false
}

// The net of such a leaf's first such pin, by the place of the port in its declaration.
fn first_inout_of_leaf(
    rec: &NetlistRec,
    constants: &Option<Constants>,
    joined: &Joined,
    instance: u32,
) -> Option<u32>
    requires leaf { (known : Known) × (path : Path)
        × IsAtLeaf known rec.now joined.now instance path }
    requires below { 0 < instance }
    ensures { (known : Known) (path : Path) → IsAtLeaf known rec.now joined.now instance path
        → constants.now ≡ known.device.constants
        → MatchOption result (¬ HasInout rec.now path)
        (IsFirstOfLeaf known rec.now joined.now path) }
{
    let declaration = joined.instances[instance as usize].declaration;
    let ports = &rec.cell_decls.at(declaration as usize).ports;
    for place in 0..ports.len() {
        let port = *ports.at(place);
        if let Some(net) = first_inout_of_port(rec, constants, joined, instance, port) {
            return Some(net);
        }
    }
    None
}

/// The net, by its first occurrence, of the first bit of the top or pin of a leaf that goes both
/// ways and is on one; none exactly where there is no such bit or pin.
pub fn first_inout(
    rec: &NetlistRec,
    constants: &Option<Constants>,
    joined: &Joined,
    bits: &[TopBit],
) -> Option<u32>
    requires joined { (known : Known) × IsJoined known rec.now joined.now
        × (constants.now ≡ known.device.constants)
        × AreTopBits rec.now joined.now.instances.items known.paths joined.now.firsts.items
        bits.now }
    ensures { (known : Known) → IsJoined known rec.now joined.now
        → constants.now ≡ known.device.constants
        → AreTopBits rec.now joined.now.instances.items known.paths joined.now.firsts.items
        bits.now
        → MatchOption result (NoneBreaks (BreaksN8 rec.now))
        (IsFirstInout known rec.now joined.now) }
{
    if let Some(net) = first_inout_bit(bits) {
        return Some(net);
    }
    for instance in 1..joined.instances.len() as u32 {
        if joined.is_leaf(instance) && has_inout(rec, joined, instance) {
            return first_inout_of_leaf(rec, constants, joined, instance);
        }
    }
    None
}
