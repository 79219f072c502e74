//! The instances of a design and the occurrences of nets, by their numbers in preorder.

ghost use Rattle.std.specs.Prelude.{◌≡◌, ◌<◌, ◌≤◌, ◌+◌, ◌^◌, ℕ, List, length, slice_get};
ghost use Rattle.std.specs.Prelude.{◌-◌, Some, IfOk, MatchOption};
ghost use Rattle.ix_hierarchy.specs.declared.instance.Instance.{Instance};
ghost use Rattle.ix_hierarchy.specs.Broken.{BreaksN10};
ghost use Rattle.ix_hierarchy.specs.Fits.{NetlistFits};
ghost use Rattle.ix_hierarchy.specs.Hierarchy.{Path};
ghost use Rattle.ix_hierarchy.specs.Lists.{AreInstances, AreKinds, nets_in as nets_within};
ghost use Rattle.ix_rec.specs.declared.device.DeviceRec.{DeviceRec};
ghost use Rattle.ix_instances.specs.Walked.{IsInRange, HasKinds, HasPlace, HasNoPlace};
ghost use Rattle.ix_instances.specs.Walked.{IsWalk, IsUnderWay, IsBehind, work, work_left};

use ix_hierarchy::{Instance, Kind};
use ix_num::Memory;
use ix_rec::NetlistRec;
use std::alloc::Global;

/// The instances, in preorder. An occurrence of a net has the number of the first one in its
/// instance, and the net's place on top of it.
#[derive(Drop)]
pub struct Instances {
    /// The instances; the top is the first.
    pub all: Vec<Instance>,
    /// How many occurrences of nets there are.
    pub nets: u32,
}

// Where the walk stands: at a place of an instance's cell.
#[derive(Clone, Copy)]
struct Step {
    instance: u32,
    place: u32,
}

// How many nets an instance of a declaration has itself.
fn nets_in(rec: &NetlistRec, kinds: &[Kind], declaration: u32) -> u32
    requires kinds { HasKinds rec.now kinds.now }
    requires inside { declaration < length kinds.now }
    requires few { nets_within rec.now declaration < 2 ^ 32 }
    ensures { result ≡ nets_within rec.now declaration }
{
    match kinds[declaration as usize] {
        Kind::Inside(cell) => rec.cell_list.at(cell as usize).nets.len() as u32,
        _ => 0,
    }
}

// The cell of a declaration, where it has the place.
fn cell_with(rec: &NetlistRec, kinds: &[Kind], declaration: u32, place: u32) -> Option<u32>
    requires kinds { HasKinds rec.now kinds.now }
    requires inside { declaration < length kinds.now }
    ensures { MatchOption result (HasNoPlace rec.now declaration place)
        (λ cell. HasPlace rec.now declaration place cell) }
{
    if let Kind::Inside(cell) = kinds[declaration as usize] {
        if (place as usize) < rec.cell_list.at(cell as usize).insts.len() {
            return Some(cell);
        }
    }
    None
}

// The place behind an instance in the one that it is in; none behind the top.
fn behind(all: &[Instance], instance: u32) -> Option<Step>
    requires inside { instance < length all.now }
    requires few { (one : Instance) → slice_get all.now instance ≡ Some one
        → one.place < 2 ^ 32 - 1 }
    ensures { IsBehind all.now instance result }
{
    if instance == 0 {
        return None;
    }
    let one = all[instance as usize];
    Some(Step {
        instance: one.parent,
        place: one.place + 1,
    })
}

impl Instances {
    // Lists the instance at a place of a cell, and goes on inside it.
    fn enter(
        &mut self,
        rec: &NetlistRec,
        kinds: &[Kind],
        cell: u32,
        step: Step,
    ) -> Result<Step, Memory>
        requires fits { IsInRange rec.now }
        requires kinds { HasKinds rec.now kinds.now }
        requires few { ¬ BreaksN10 rec.now }
        requires walk { IsWalk rec.now self.old.all.items self.old.nets step.instance step.place }
        requires has { (one : Instance) → slice_get self.old.all.items step.instance ≡ Some one
            → HasPlace rec.now one.declaration step.place cell }
        ensures walk { IfOk result (λ next. IsWalk rec.now self.new.all.items self.new.nets
            next.instance next.place) }
        ensures less { IfOk result (λ next. work self.new.all.items next.instance
            < work self.old.all.items step.instance) }
    {
        let number = *rec
            .cell_list
            .at(cell as usize)
            .insts
            .at(step.place as usize);
        let declaration = rec.inst_list.at(number as usize).cell;
        let instance = self.all.len() as u32;
        let nets = nets_in(rec, kinds, declaration);
        self.all.push(Instance {
            number,
            declaration,
            parent: step.instance,
            place: step.place,
            first_net: self.nets,
        })?;
        self.nets += nets;
        Ok(Step { instance, place: 0 })
    }

    // One step of the walk; none behind the last instance.
    fn step(&mut self, rec: &NetlistRec, kinds: &[Kind], step: Step) -> Result<Option<Step>, Memory>
        requires fits { IsInRange rec.now }
        requires kinds { HasKinds rec.now kinds.now }
        requires few { ¬ BreaksN10 rec.now }
        requires walk { IsWalk rec.now self.old.all.items self.old.nets step.instance step.place }
        ensures walk { IfOk result (λ next. IsUnderWay rec.now self.new.all.items self.new.nets
            next) }
        ensures less { IfOk result (λ next. work_left self.new.all.items next
            < 1 + work self.old.all.items step.instance) }
    {
        let declaration = self.all[step.instance as usize].declaration;
        match cell_with(rec, kinds, declaration, step.place) {
            Some(cell) => Ok(Some(self.enter(rec, kinds, cell, step)?)),
            None => Ok(behind(&self.all, step.instance)),
        }
    }

    /// The instances of a netlist whose counted places aren't too many. `Memory` is the only error.
    /// The way up is that of the parents, so no stack is needed.
    pub fn new(alloc: Global, rec: &NetlistRec, kinds: &[Kind]) -> Result<Instances, Memory>
        requires fits { (names : ℕ) × NetlistFits names rec.now }
        requires kinds { (device : DeviceRec) × AreKinds device rec.now kinds.now }
        requires few { ¬ BreaksN10 rec.now }
        ensures all { IfOk result (λ instances. (paths : List Path)
            × AreInstances rec.now instances.all.items paths instances.nets) }
        ensures few { IfOk result (λ instances. length instances.all.items + instances.nets
            ≤ 2 ^ 22 + 1) }
    {
        let mut all = Vec::new(alloc);
        let nets = nets_in(rec, kinds, rec.top_inst.cell);
        all.push(Instance {
            number: 0,
            declaration: rec.top_inst.cell,
            parent: 0,
            place: 0,
            first_net: 0,
        })?;
        let mut instances = Instances { all, nets };
        let mut next = Some(Step {
            instance: 0,
            place: 0,
        });
        while let Some(step) = next {
            next = instances.step(rec, kinds, step)?;
        }
        Ok(instances)
    }
}
