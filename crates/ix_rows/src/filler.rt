//! The second pass: rows that are being filled.

ghost use Rattle.std.specs.Prelude.{length};
ghost use Rattle.ix_rows.specs.Layout.{AreStarts, AreEnds};

use crate::rows::Rows;
use crate::sizes::RowSizes;
use crate::starts::starts_for;
use ix_num::Memory;
use std::alloc::Global;

/// Rows that are being filled, each to the size that it is to have. They take 8 bytes a row and the
/// items.
#[derive(Drop)]
pub struct RowFiller<T> {
    // The place at which each row starts, and behind them the number of items.
    starts: Vec<u32>,
    // The place behind the last item that was put into each row.
    ends: Vec<u32>,
    items: Vec<T>,
    ghost starts_rise: { AreStarts starts.items (length items.items) },
    ghost ends_within: { AreEnds starts.items ends.items },
}

impl<T: Copy> RowFiller<T> {
    ghost use Rattle.std.specs.Prelude.{◌≡◌, ℕ, ◌<◌, [], ◌∷◌, ◌++◌, nat_eq, IfOk, if◌then◌else◌};
    ghost use Rattle.ix_rows.specs.Rows.{row_count, size_of, filler_rows, room_in, row_in, rows};
    ghost use Rattle.ix_rows.specs.Rows.{row_of};

    /// Empty rows with room for these sizes. The blank stands where no item was put yet. `Memory`
    /// is the only error; it takes the sizes with it.
    #[tactic(auto, unfolding(crate::specs::Rows::row_count, crate::specs::Rows::size_of, crate::specs::Rows::filler_rows, crate::specs::Rows::room_in, crate::specs::Rows::row_in))]
    pub fn new(alloc: Global, sizes: RowSizes, blank: T) -> Result<RowFiller<T>, Memory>
        ensures rows { IfOk result (λ filler. filler_rows filler ≡ row_count sizes) }
        ensures room { IfOk result (λ filler. (r : ℕ) → room_in filler r ≡ size_of sizes r) }
        ensures empty { IfOk result (λ filler. (r : ℕ) → row_in filler r ≡ []) }
    {
        let RowSizes { sizes, total } = sizes;
        let starts = starts_for(alloc, &sizes)?;
        // Nothing was put yet, so each row ends where it starts. The ends take the memory of the
        // sizes.
        let mut ends = sizes;
        let rows = ends.len();
        ends.copy_from_slice(&starts[..rows]);
        let mut items = Vec::new(alloc);
        items.resize(total as usize, blank)?;
        Ok(RowFiller {
            starts,
            ends,
            items,
        })
    }

    /// Puts an item at the end of a row that has room.
    #[tactic(auto, unfolding(crate::specs::Rows::filler_rows, crate::specs::Rows::room_in, crate::specs::Rows::row_in))]
    pub fn put(&mut self, row: usize, item: T)
        requires row { row < filler_rows self.now }
        requires room { length (row_in self.now row) < room_in self.now row }
        ensures items { (r : ℕ) → row_in self.new r
            ≡ row_in self.old r ++ (if nat_eq row r then item ∷ [] else []) }
        ensures room { (r : ℕ) → room_in self.new r ≡ room_in self.old r }
        ensures rows { filler_rows self.new ≡ filler_rows self.old }
    {
        let end = self.ends[row];
        self.items[end as usize] = item;
        self.ends[row] = end + 1;
    }

    /// The rows, once each is full. Nothing is moved or copied.
    #[tactic(auto, unfolding(crate::specs::Rows::filler_rows, crate::specs::Rows::room_in, crate::specs::Rows::row_in, crate::specs::Rows::rows, crate::specs::Rows::row_of))]
    pub fn finish(self) -> Rows<T>
        requires full { (r : ℕ) → r < filler_rows self → length (row_in self r) ≡ room_in self r }
        ensures rows { rows result ≡ filler_rows self }
        ensures items { (r : ℕ) → row_of result r ≡ row_in self r }
    {
        let RowFiller {
            starts,
            ends: _,
            items,
        } = self;
        Rows { starts, items }
    }
}
