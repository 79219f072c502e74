//! The declarations that the top reaches, and which of them contain themselves.
//!
//! Depth first, with a list of the declarations that are open, cut into parts: the declarations of
//! a part contain each other. It follows H. N. Gabow, Path-based depth-first search for strong and
//! biconnected components, 2000; where it numbers components, this keeps the least number of a
//! declaration that contains itself.

ghost use Rattle.std.specs.Prelude.{◌≡◌, ◌<◌, ◌-◌, ℕ, length, slice_get, Some, None, IfOk};
ghost use Rattle.std.specs.Prelude.{OnOk};
ghost use Rattle.ix_reach.specs.Cells.{AreCells, DesignFits};
ghost use Rattle.ix_reach.specs.State.{state_of, started, entered, with_visit, lesser_of, IsKept};
ghost use Rattle.ix_reach.specs.State.{IsGone, IsClosedFrom, IsLeft, next_looped};
ghost use Rattle.ix_reach.specs.Searching.{AreDifferent, IsSearch, IsSearched, work_of};

use crate::cells::CellTable;
use ix_first::number_of;
use ix_hierarchy::declaration_at;
use ix_num::Memory;
use ix_rec::NetlistRec;
use std::alloc::Global;

/// What is known of a declaration.
#[derive(Clone, Copy)]
pub(crate) enum Mark {
    // Not met yet.
    New,
    // Met, at this place of the open list.
    Open(u32),
    // It and all that it reaches have been looked through.
    Closed,
}

/// Where the search stands in an open declaration: at a place of one of its cells, or behind them.
#[derive(Clone, Copy)]
pub(crate) struct Visit {
    // The declaration's place in the open list.
    pub(crate) opened: u32,
    pub(crate) cell: Option<u32>,
    pub(crate) place: usize,
}

/// A search from the top down.
#[derive(Drop)]
pub(crate) struct Search {
    pub(crate) marks: Vec<Mark>,
    pub(crate) opened: Vec<u32>,
    /// The place in the open list at which each part begins.
    pub(crate) parts: Vec<u32>,
    pub(crate) visits: Vec<Visit>,
    /// The declarations that were met, as preorder meets them first.
    pub(crate) met: Vec<u32>,
    /// Those that were closed, each behind all that it contains, where none contains itself.
    pub(crate) closed: Vec<u32>,
    /// The least one that contains itself.
    pub(crate) looped: Option<u32>,
}

/// The lesser of a number and the one that there is.
pub(crate) fn lesser(one: Option<u32>, other: u32) -> Option<u32>
    ensures { result ≡ Some (lesser_of one other) }
{
    match one {
        Some(one) => Some(one.min(other)),
        None => Some(other),
    }
}

// The least that is known to contain itself, with one more where there are several.
fn looped_with(several: bool, looped: Option<u32>, declaration: u32) -> Option<u32>
    ensures { result ≡ next_looped several looped declaration }
{
    if several {
        return lesser(looped, declaration);
    }
    looped
}

impl Search {
    fn new(alloc: Global, rec: &NetlistRec) -> Result<Search, Memory>
        ensures { IfOk result (λ search. state_of search ≡ started (length rec.now.cell_decls)) }
    {
        let mut marks = Vec::new(alloc);
        marks.resize(rec.cell_decls.len(), Mark::New)?;
        Ok(Search {
            marks,
            opened: Vec::new(alloc),
            parts: Vec::new(alloc),
            visits: Vec::new(alloc),
            met: Vec::new(alloc),
            closed: Vec::new(alloc),
            looped: None,
        })
    }

    // Opens a declaration that wasn't met, with its first cell.
    fn enter(&mut self, declaration: u32, cell: Option<u32>) -> Result<(), Memory>
        requires { declaration < length self.old.marks.items }
        ensures { OnOk result (state_of self.new
            ≡ entered (state_of self.old) declaration cell) }
    {
        let place = number_of(self.opened.len())?;
        self.marks[declaration as usize] = Mark::Open(place);
        self.opened.push(declaration)?;
        self.parts.push(place)?;
        self.met.push(declaration)?;
        self.visits.push(Visit {
            opened: place,
            cell,
            place: 0,
        })?;
        Ok(())
    }

    // Where the last part begins.
    fn last_part(&self) -> Option<u32>
        ensures { result ≡ slice_get self.now.parts.items (length self.now.parts.items - 1) }
    {
        self.parts.as_slice().last().copied()
    }
}

// Makes one part of all from the one on in which a place of the open list is.
fn merge(parts: &mut Vec<u32>, place: u32)
    ensures { IsKept parts.old.items place parts.new.items }
{
    while let Some(part) = parts.as_slice().last().copied() {
        if part <= place {
            return;
        }
        parts.pop();
    }
}

// Closes the declarations of the last part, which begins at a place of the open list. Answers the
// least that is known to contain itself.
fn close_part(
    marks: &mut Vec<Mark>,
    opened: &mut Vec<u32>,
    closed: &mut Vec<u32>,
    looped: Option<u32>,
    place: u32,
) -> Result<Option<u32>, Memory>
    requires within { place < length opened.old.items }
    requires marked { (i d : ℕ) → slice_get opened.old.items i ≡ Some d
        → d < length marks.old.items }
    requires differ { AreDifferent opened.old.items }
    ensures { IfOk result (λ least. IsClosedFrom
        record {
          marks = marks.old.items;
          open_ones = opened.old.items;
          closed = closed.old.items;
          looped = looped;
        } place place
        record {
          marks = marks.new.items;
          open_ones = opened.new.items;
          closed = closed.new.items;
          looped = least;
        }) }
{
    let several = opened.len() > place as usize + 1;
    let mut least = looped;
    while opened.len() > place as usize {
        if let Some(declaration) = opened.pop() {
            marks[declaration as usize] = Mark::Closed;
            closed.push(declaration)?;
            least = looped_with(several, least, declaration);
        }
    }
    Ok(least)
}

impl Search {
    // Goes from an open declaration to one that it contains, with that one's first cell.
    fn go_to(&mut self, declaration: u32, cell: Option<u32>) -> Result<(), Memory>
        requires { declaration < length self.old.marks.items }
        ensures { OnOk result (IsGone (state_of self.old) declaration cell
            (slice_get self.old.marks.items declaration) (state_of self.new)) }
    {
        match self.marks[declaration as usize] {
            Mark::New => self.enter(declaration, cell),
            Mark::Open(place) => {
                self.looped = lesser(self.looped, declaration);
                merge(&mut self.parts, place);
                Ok(())
            }
            Mark::Closed => Ok(()),
        }
    }

    // Leaves a declaration whose cells have been looked through, by its place in the open list.
    // Where it is the first of the last part, that part is closed.
    fn leave(&mut self, place: u32) -> Result<(), Memory>
        requires within { place < length self.old.opened.items }
        requires marked { (i d : ℕ) → slice_get self.old.opened.items i ≡ Some d
            → d < length self.old.marks.items }
        requires differ { AreDifferent self.old.opened.items }
        ensures { OnOk result (IsLeft (state_of self.old) place (state_of self.new)) }
    {
        if self.last_part() != Some(place) {
            return Ok(());
        }
        self.parts.pop();
        self.looped = close_part(
            &mut self.marks,
            &mut self.opened,
            &mut self.closed,
            self.looped,
            place,
        )?;
        Ok(())
    }

    // One step from the declaration that was opened last.
    fn step(&mut self, rec: &NetlistRec, cells: &CellTable, visit: Visit) -> Result<(), Memory>
        requires fits { DesignFits rec.now }
        requires cells { AreCells rec.now cells.now.first.items cells.now.next.items }
        requires search { IsSearch rec.now (with_visit (state_of self.old) visit) }
        ensures search { OnOk result (IsSearch rec.now (state_of self.new)) }
        ensures work { OnOk result (work_of rec.now (state_of self.new)
            < work_of rec.now (with_visit (state_of self.old) visit)) }
    {
        let Some(number) = visit.cell else {
            return self.leave(visit.opened);
        };
        let cell = rec.cell_list.at(number as usize);
        if visit.place >= cell.insts.len() {
            self.visits.push(Visit {
                opened: visit.opened,
                cell: cells.next[number as usize],
                place: 0,
            })?;
            return Ok(());
        }
        self.visits.push(Visit {
            opened: visit.opened,
            cell: visit.cell,
            place: visit.place + 1,
        })?;
        let inner = declaration_at(rec, cell, visit.place);
        self.go_to(inner, cells.first[inner as usize])
    }
}

/// The search of all that the top reaches.
pub(crate) fn search_down(
    alloc: Global,
    rec: &NetlistRec,
    cells: &CellTable,
) -> Result<Search, Memory>
    requires fits { DesignFits rec.now }
    requires cells { AreCells rec.now cells.now.first.items cells.now.next.items }
    ensures { IfOk result (λ search. IsSearched rec.now (state_of search)) }
{
    let top = rec.top_inst.cell;
    let mut search = Search::new(alloc, rec)?;
    search.enter(top, cells.first[top as usize])?;
    while let Some(visit) = search.visits.pop() {
        search.step(rec, cells, visit)?;
    }
    Ok(search)
}
