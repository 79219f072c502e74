//! What is known of a design, by number.

ghost use Rattle.std.specs.Prelude.{◌≡◌, ◌↔◌, ◌<◌, ℕ, Some, length, slice_get, IsTrue};
ghost use Rattle.ix_rec.specs.declared.netlist.Cell.{Cell as CellSeen};
ghost use Rattle.ix_rec.specs.declared.netlist.CellInstance.{CellInstance};
ghost use Rattle.ix_rec.specs.declared.netlist.Net.{Net};
ghost use Rattle.ix_rec.specs.declared.netlist.NetlistRec.{NetlistRec as NetlistSeen};
ghost use Rattle.ix_hierarchy.specs.declared.instance.Instance.{Instance as InstanceSeen};
ghost use Rattle.ix_hierarchy.specs.Hierarchy.{Path, IsLeaf};
ghost use Rattle.ix_hierarchy.specs.Nets.{Occurrence, Occurs};
ghost use Rattle.ix_hierarchy.specs.Pins.{IsPlainLeaf};
ghost use Rattle.ix_hierarchy.specs.Lists.{IsNumber};
ghost use Rattle.ix_instance_lists.specs.Listed.{HasNet};
ghost use Rattle.ix_joined.specs.Kinds.{has_inside as has_inside_seen, is_plain as is_plain_seen};
ghost use Rattle.ix_joined.specs.Joining.{Known, IsJoined, HasJoined};

use ix_bit_rows::Rows;
use ix_hierarchy::{Instance, Kind};
use ix_num::NameId;
use ix_rec::NetlistRec;

/// What is known of the nets and pins of a design, by number.
#[derive(Drop)]
pub struct Joined {
    /// What an instance of each declaration is.
    pub kinds: Vec<Kind>,
    /// The bits of instances that nets name.
    pub outer: Rows,
    /// And their written names.
    pub written: Vec<NameId>,
    /// The instances.
    pub instances: Vec<Instance>,
    /// For each occurrence the first one of its net.
    pub firsts: Vec<u32>,
}

// Whether it has a cell.
fn has_inside(kind: Kind) -> bool
    ensures { result ≡ has_inside_seen kind }
{
    match kind {
        Kind::Inside(_) => true,
        Kind::Constant(_) => false,
        Kind::Plain => false,
        Kind::Unknown => false,
    }
}

// Whether it is a leaf that is a cell.
fn is_plain(kind: Kind) -> bool
    ensures { result ≡ is_plain_seen kind }
{
    match kind {
        Kind::Inside(_) => false,
        Kind::Constant(_) => false,
        Kind::Plain => true,
        Kind::Unknown => false,
    }
}

impl Joined {
    /// What an instance is, by its number in preorder.
    pub fn kind(&self, instance: u32) -> Kind
        requires joined { HasJoined self.now }
        requires there { instance < length self.now.instances.items }
        ensures { (one : InstanceSeen) → slice_get self.now.instances.items instance ≡ Some one
            → slice_get self.now.kinds.items one.declaration ≡ Some result }
    {
        self.kinds[self.instances[instance as usize].declaration as usize]
    }

    /// Whether an instance below the top is a leaf.
    pub fn is_leaf(&self, instance: u32) -> bool
        requires joined { HasJoined self.now }
        requires there { instance < length self.now.instances.items }
        requires below { 0 < instance }
        ensures { (known : Known) (design : NetlistSeen) (path : Path)
            → IsJoined known design self.now → slice_get known.paths instance ≡ Some path
            → IsTrue result ↔ ((inst : CellInstance) × IsLeaf design path inst) }
    {
        !has_inside(self.kind(instance))
    }

    /// Whether an instance below the top is a leaf that is a cell.
    pub fn is_cell(&self, instance: u32) -> bool
        requires joined { HasJoined self.now }
        requires there { instance < length self.now.instances.items }
        requires below { 0 < instance }
        ensures { (known : Known) (design : NetlistSeen) (path : Path)
            → IsJoined known design self.now → slice_get known.paths instance ≡ Some path
            → IsTrue result ↔ ((inst : CellInstance) × (ty : ℕ)
            × IsPlainLeaf known.device design path inst ty) }
    {
        is_plain(self.kind(instance))
    }

    /// The name of an occurrence's net in its cell. The occurrence is of a net of the instance.
    pub fn net_name(&self, rec: &NetlistRec, instance: u32, occurrence: u32) -> NameId
        requires joined { (known : Known) × IsJoined known rec.now self.now }
        requires net { HasNet rec.now self.now.instances.items instance occurrence }
        ensures named { (known : Known) → IsJoined known rec.now self.now
            → result < length known.names }
        ensures name { (known : Known) (at : Occurrence) (cell : CellSeen) (net : Net)
            → IsJoined known rec.now self.now
            → IsNumber rec.now self.now.instances.items known.paths at occurrence
            → Occurs rec.now at cell net → result ≡ net.name }
    {
        let place = occurrence - self.instances[instance as usize].first_net;
        match self.kind(instance) {
            Kind::Inside(cell) => rec.cell_list.at(cell as usize).nets.at(place as usize).name,
            _ => NameId::new(0),
        }
    }
}
