//! The rows.

ghost use Rattle.std.specs.Prelude.{length};
ghost use Rattle.ix_rows.specs.Layout.{AreStarts};

/// Rows of items, one after another in memory. They take 4 bytes a row and the items.
#[derive(Drop)]
pub struct Rows<T> {
    // The place at which each row starts, and behind them the number of items.
    pub(crate) starts: Vec<u32>,
    pub(crate) items: Vec<T>,
    ghost starts_rise: { AreStarts starts.items (length items.items) },
}

impl<T: Copy> Rows<T> {
    ghost use Rattle.std.specs.Prelude.{◌≡◌, ◌<◌, Some, slice_get};
    ghost use Rattle.ix_rows.specs.Rows.{rows, row_of};

    /// How many items a row has.
    #[tactic(auto, unfolding(crate::specs::Rows::rows, crate::specs::Rows::row_of))]
    pub fn len(&self, row: usize) -> usize
        requires { row < rows self.now }
        ensures { result ≡ length (row_of self.now row) }
    {
        (self.starts[row + 1] - self.starts[row]) as usize
    }

    /// An item of a row, from 0.
    #[tactic(auto, unfolding(crate::specs::Rows::rows, crate::specs::Rows::row_of))]
    pub fn at(&self, row: usize, i: usize) -> T
        requires row { row < rows self.now }
        requires within { i < length (row_of self.now row) }
        ensures { slice_get (row_of self.now row) i ≡ Some result }
    {
        self.items[self.starts[row] as usize + i]
    }
}
