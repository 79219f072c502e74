//! Small words of the definitions.

ghost use Rattle.std.specs.Prelude.{◌≡◌, ◌≢◌, ◌^◌, ◌<◌, ◌≤◌, length, slice_get, Some, None};
ghost use Rattle.std.specs.Prelude.{option_map};
ghost use Rattle.ix_hierarchy.specs.Hierarchy.{child_of, width as width_seen};
ghost use Rattle.ix_hierarchy.specs.Nets.{index_of as index_seen};

use ix_rec::{Cell, NetlistRec, Port, PortIndexing, PortInstance, PortKind};

/// How many bits a port has, at least 1.
pub fn width(port: &Port) -> u64
    ensures width { result ≡ width_seen port.now }
    ensures some { 1 ≤ result }
    ensures most { result ≤ 2 ^ 32 }
{
    match port.kind {
        PortKind::Bit => 1,
        PortKind::Bus => u64::from(port.bus_start.abs_diff(port.bus_end)) + 1,
    }
}

/// The index of the bit that a net names.
pub fn index_of(named: &PortInstance) -> u32
    ensures { result ≡ index_seen named.now.bus named.now.idx }
{
    match named.bus {
        PortIndexing::SingleBit => 0,
        PortIndexing::Idx => named.idx,
    }
}

/// The declaration of the instance at a place of a cell.
pub fn declaration_at(rec: &NetlistRec, cell: &Cell, place: usize) -> u32
    requires there { child_of rec.now cell.now place ≢ None }
    ensures { Some result ≡ option_map (λ inst. inst.cell) (child_of rec.now cell.now place) }
{
    rec.inst_list.at(*cell.insts.at(place) as usize).cell
}
