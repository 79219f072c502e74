//! What is kept while groups are made: which cells are in one, and how far the cells of nets were
//! passed over.

ghost use Rattle.std.specs.Prelude.{◌≡◌, ◌<◌, ◌≤◌, ℕ, List, [], ◌∷◌, Some, false, length};
ghost use Rattle.std.specs.Prelude.{slice_get, take, IfOk, OnOk};
ghost use Rattle.std.specs.List.{AllByRecursion};
ghost use Rattle.ix_rec.specs.declared.device.DeviceRec.{DeviceRec as RecSeen};
ghost use Rattle.ix_rec.specs.declared.flow.Flat.{Flat as FlatSeen};
ghost use Rattle.ix_belmap.specs.Groups.{net_of_port};
ghost use Rattle.ix_belmap.specs.Marks.{AddsMarks, AreCells, AreMarks, AreRows, IsPassed, Knows};
ghost use Rattle.ix_belmap.specs.Marks.{free_of, group_by_marks, is_free_for, is_marked, lists_of};

use crate::stays::stays_known;
use ix_device::Device;
use ix_first::FirstByKey;
use ix_num::{CellId, Memory, NameId, NetId};
use ix_rec::Flat;
use std::alloc::Global;

/// The most cells that join a port cell.
const MOST: usize = 8;

/// How many of the first cells of a net no port cell of a type can take any more.
#[derive(Clone, Copy)]
pub(crate) struct Passed {
    port_type: NameId,
    count: usize,
}

/// What is kept while groups are made.
#[derive(Drop)]
pub(crate) struct Marks {
    /// Whether each cell is in a group.
    pub(crate) taken: Vec<bool>,
    // For each signal net what the last port cell on it passed over.
    passed: Vec<Option<Passed>>,
    // Whether cells of a type stay with port cells of another.
    known: FirstByKey<bool>,
}

// Whether a cell is in no group and its type stays with a port cell's.
fn is_free(
    device: &Device,
    flat: &Flat,
    taken: &Vec<bool>,
    known: &mut FirstByKey<bool>,
    port_type: NameId,
    cell: CellId,
) -> Result<bool, Memory>
    requires cell { cell < length flat.now.cells }
    requires marks { length taken.now.items ≡ length flat.now.cells }
    requires known { Knows device.now known.now }
    ensures free { IfOk result (λ free. free
        ≡ is_free_for device.now flat.now taken.now.items port_type cell) }
    ensures known { OnOk result (Knows device.now known.new) }
{
    let place = cell.get() as usize;
    if taken[place] {
        return Ok(false);
    }
    stays_known(device, known, port_type, flat.cells.at(place).ty)
}

// The port cell with the first cells of a row, at most eight, that are free for it, and how many
// cells were looked at. Of the first ones it is known that they aren't free.
fn gathered(
    alloc: Global,
    device: &Device,
    flat: &Flat,
    taken: &Vec<bool>,
    known: &mut FirstByKey<bool>,
    row: &Vec<CellId>,
    port: CellId,
    port_type: NameId,
    from: usize,
) -> Result<(Vec<CellId>, usize), Memory>
    requires cells { AreCells flat.now row.now.items }
    requires marks { length taken.now.items ≡ length flat.now.cells }
    requires from { from ≤ length row.now.items }
    requires passed { IsPassed device.now flat.now taken.now.items port_type row.now.items from }
    requires known { Knows device.now known.now }
    ensures group { IfOk result (λ r. r.0.items
        ≡ port ∷ take 8 (free_of device.now flat.now taken.now.items port_type row.now.items)) }
    ensures within { IfOk result (λ r. r.1 ≤ length row.now.items) }
    ensures looked { IfOk result (λ r. r.0.items
        ≡ port ∷ free_of device.now flat.now taken.now.items port_type (take r.1 row.now.items)) }
    ensures known { OnOk result (Knows device.now known.new) }
{
    let mut group = Vec::new(alloc);
    group.push(port)?;
    for i in from..row.len() {
        if group.len() > MOST {
            return Ok((group, i));
        }
        let cell = row[i];
        if is_free(device, flat, taken, known, port_type, cell)? {
            group.push(cell)?;
        }
    }
    Ok((group, row.len()))
}

// Marks cells as being in a group.
fn mark(taken: &mut Vec<bool>, cells: &Vec<CellId>)
    requires { AllByRecursion (λ cell. cell < length taken.now.items) cells.now.items }
    ensures count { length taken.new.items ≡ length taken.old.items }
    ensures marks { AddsMarks cells.now.items taken.old.items taken.new.items }
{
    for i in 0..cells.len() {
        taken[cells[i].get() as usize] = true;
    }
}

impl Marks {
    /// No cell is in a group.
    pub(crate) fn new(alloc: Global, flat: &Flat) -> Result<Marks, Memory>
        ensures marks { IfOk result (λ marks. (rec : RecSeen) (rows : List (List ℕ))
            → AreMarks rec flat.now rows marks) }
        ensures none { IfOk result (λ marks. (cell : ℕ)
            → is_marked marks.taken.items cell ≡ false) }
    {
        let mut taken = Vec::new(alloc);
        taken.resize(flat.cells.len(), false)?;
        let mut passed = Vec::new(alloc);
        passed.resize(flat.nets.len(), None)?;
        Ok(Marks {
            taken,
            passed,
            known: FirstByKey::new(alloc),
        })
    }

    // How many of the first cells of a net no port cell of this type can take.
    fn start(&self, net: NetId, port_type: NameId) -> usize
        requires { net < length self.now.passed.items }
        ensures { (rec : RecSeen) (flat : FlatSeen) (rows : List (List ℕ)) (row : List ℕ)
            → AreMarks rec flat rows self.now → slice_get rows net ≡ Some row
            → (result ≤ length row)
            × IsPassed rec flat self.now.taken.items port_type row result }
    {
        match self.passed[net.get() as usize] {
            Some(passed) => {
                if passed.port_type == port_type {
                    passed.count
                } else {
                    0
                }
            }
            None => 0,
        }
    }

    /// The group of a port cell on this net, whose cells are marked. A cell that was passed over
    /// once isn't looked at again by a port cell of the same type that follows on the net.
    pub(crate) fn group_on(
        &mut self,
        alloc: Global,
        device: &Device,
        flat: &Flat,
        rows: &Vec<Vec<CellId>>,
        net: NetId,
        port: CellId,
    ) -> Result<Vec<CellId>, Memory>
        requires rows { AreRows flat.now (lists_of rows.now.items) }
        requires marks { AreMarks device.now flat.now (lists_of rows.now.items) self.now }
        requires port { port < length flat.now.cells }
        requires net { net_of_port flat.now port ≡ Some net }
        requires in_range { net < length flat.now.nets }
        ensures group { IfOk result (λ group. group.items
            ≡ group_by_marks device.now flat.now self.old.taken.items port) }
        ensures marks { OnOk result
            (AreMarks device.now flat.now (lists_of rows.now.items) self.new) }
        ensures taken { IfOk result (λ group.
            AddsMarks group.items self.old.taken.items self.new.taken.items) }
    {
        let port_type = flat.cells.at(port.get() as usize).ty;
        let row = &rows[net.get() as usize];
        let from = self.start(net, port_type);
        let (group, count) = gathered(
            alloc,
            device,
            flat,
            &self.taken,
            &mut self.known,
            row,
            port,
            port_type,
            from,
        )?;
        mark(&mut self.taken, &group);
        self.passed[net.get() as usize] = Some(Passed { port_type, count });
        Ok(group)
    }

    /// The group of a port cell on no signal net, which is alone.
    pub(crate) fn group_alone(&mut self, alloc: Global, port: CellId) -> Result<Vec<CellId>, Memory>
        requires { port < length self.now.taken.items }
        ensures group { IfOk result (λ group. group.items ≡ port ∷ []) }
        ensures marks { (rec : RecSeen) (flat : FlatSeen) (rows : List (List ℕ))
            → AreMarks rec flat rows self.old → AreMarks rec flat rows self.new }
        ensures taken { IfOk result (λ group.
            AddsMarks group.items self.old.taken.items self.new.taken.items) }
    {
        let mut group = Vec::new(alloc);
        group.push(port)?;
        self.taken[port.get() as usize] = true;
        Ok(group)
    }
}
