//! The first pass: how many items each row is to have.

ghost use Rattle.std.specs.Prelude.{◌≡◌};
ghost use Rattle.std.specs.List.{sum};

use ix_num::Memory;
use std::alloc::Global;

/// How many items each row is to have. It takes 4 bytes a row.
#[derive(Drop)]
pub struct RowSizes {
    pub(crate) sizes: Vec<u32>,
    pub(crate) total: u32,
    ghost counted: { sum sizes.items ≡ total },
}

impl RowSizes {
    ghost use Rattle.std.specs.Prelude.{ℕ, ◌+◌, ◌-◌, ◌<◌, ◌^◌, nat_eq, IfOk, if◌then◌else◌};
    ghost use Rattle.ix_rows.specs.Rows.{row_count, size_of, total_size};

    /// Rows without items. `Memory` is the only error.
    #[tactic(auto, unfolding(crate::specs::Rows::row_count, crate::specs::Rows::size_of, crate::specs::Rows::total_size))]
    pub fn new(alloc: Global, rows: usize) -> Result<RowSizes, Memory>
        ensures rows { IfOk result (λ sizes. row_count sizes ≡ rows) }
        ensures sizes { IfOk result (λ sizes. (r : ℕ) → size_of sizes r ≡ 0) }
        ensures total { IfOk result (λ sizes. total_size sizes ≡ 0) }
    {
        let mut sizes = Vec::new(alloc);
        sizes.resize(rows, 0u32)?;
        Ok(RowSizes { sizes, total: 0 })
    }

    /// One item more in a row. All rows together have less than 2^32.
    #[tactic(auto, unfolding(crate::specs::Rows::row_count, crate::specs::Rows::size_of, crate::specs::Rows::total_size))]
    pub fn add(&mut self, row: usize)
        requires row { row < row_count self.now }
        requires few { total_size self.now < 2 ^ 32 - 1 }
        ensures sizes { (r : ℕ) → size_of self.new r
            ≡ size_of self.old r + (if nat_eq row r then 1 else 0) }
        ensures total { total_size self.new ≡ total_size self.old + 1 }
        ensures rows { row_count self.new ≡ row_count self.old }
    {
        self.sizes[row] += 1;
        self.total += 1;
    }
}
