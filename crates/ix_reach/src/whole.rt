//! What the top of a design reaches, where N1 isn't broken.

ghost use Rattle.std.specs.Prelude.{◌≡◌, ℕ, IfOk, IfErr, OnOk, Some, None};
ghost use Rattle.ix_hierarchy.specs.Broken.{None1};
ghost use Rattle.ix_hierarchy.specs.Fits.{NetlistFits};
ghost use Rattle.ix_hierarchy.specs.Lists.{AreFirstCells, AreMet, AreClosed};
ghost use Rattle.ix_reach.specs.Reaching.{IsReachFault};
ghost use Rattle.ix_reach.specs.State.{first_of_two};

use crate::cells::{cell_table, first_with_two};
use crate::search::{lesser, search_down};
use ix_first::number_of;
use ix_num::Memory;
use ix_rec::NetlistRec;
use std::alloc::Global;

/// What the top of a design reaches.
#[derive(Drop)]
pub struct Reach {
    /// The cell of each declaration, by its place in the netlist's list.
    pub cells: Vec<Option<u32>>,
    /// The declarations that the top reaches, in the order in which the walk through the design
    /// meets them.
    pub met: Vec<u32>,
    /// They, each behind all that it contains.
    pub closed: Vec<u32>,
}

/// Why there is no such list.
#[derive(Drop)]
pub enum ReachFault {
    /// The first declaration that breaks N1: that contains itself, or has two cells.
    Broken(u32),
    /// Out of memory.
    Memory,
}

impl From<Memory> for ReachFault {
    ghost use Rattle.ix_reach.specs.declared.whole.ReachFault.TheVariants.{Memory as NoMemory};

    ghost from_gives = { λ _ result. result ≡ NoMemory };

    fn from(_error: Memory) -> ReachFault {
        ReachFault::Memory
    }
}

// The lesser of two numbers, where there are two.
fn first_of(one: Option<u32>, other: Option<u32>) -> Option<u32>
    ensures { result ≡ first_of_two one other }
{
    match other {
        Some(other) => lesser(one, other),
        None => one,
    }
}

/// The declarations that the top of a design reaches, and the cell of each. It takes time and
/// memory by the netlist's size.
///
/// # Errors
/// `Broken` with the first declaration that breaks N1; else `Memory` where memory runs out, also
/// past 2^32 - 1 cells or declarations.
pub fn reached(alloc: Global, rec: &NetlistRec) -> Result<Reach, ReachFault>
    requires { (names : ℕ) × NetlistFits names rec.now }
    ensures keeps { OnOk result (None1 rec.now) }
    ensures cells { IfOk result (λ reach. AreFirstCells rec.now reach.cells.items) }
    ensures met { IfOk result (λ reach. AreMet rec.now reach.met.items) }
    ensures closed { IfOk result (λ reach. AreClosed rec.now reach.closed.items) }
    ensures broken { IfErr result (IsReachFault rec.now) }
{
    let count = number_of(rec.cell_decls.len())?;
    let cells = cell_table(alloc, rec)?;
    let found = search_down(alloc, rec, &cells)?;
    match first_of(found.looped, first_with_two(rec, &cells, count)) {
        Some(declaration) => Err(ReachFault::Broken(declaration)),
        None => Ok(Reach {
            cells: cells.first,
            met: found.met,
            closed: found.closed,
        }),
    }
}
