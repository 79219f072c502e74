//! The port bits that the nets of each cell name.

ghost use Rattle.std.specs.Prelude.{◌≡◌, ◌<◌, ◌≤◌, ℕ, length, slice_get, Some, MatchOption, true};
ghost use Rattle.std.specs.Prelude.{false};
ghost use Rattle.ix_bit_rows.specs.Table.{IsTable, IsStartOf, IsEndOf, IsCut, IsNetOf, IsOnNone};
ghost use Rattle.ix_bit_rows.specs.Table.{start_in, end_in, AreOfInstance};
ghost use Rattle.ix_bit_rows.specs.Tests.{is_before, is_row_at};

use ix_hierarchy::Row;
use std::marker::Model;

/// The rows of cells, each once and rising in each cell. Contracts see the list of all, and where
/// the rows of each cell of the netlist begin and end.
#[derive(Drop)]
pub struct Rows {
    rows: Vec<Row>,
    // For each cell where its rows begin and end.
    starts: Vec<usize>,
    ends: Vec<usize>,
}

impl Model for Rows {
    ghost use Rattle.ix_bit_rows.specs.Table.{RowTable, IsTable};

    ghost Value = { RowTable };

    ghost view = { λ r.
        record { rows = r.rows.items; starts = r.starts.items; ends = r.ends.items } };

    ghost invariant = { λ r. IsTable r.rows.items r.starts.items r.ends.items };
}

// Whether a row is before each one of a bit of the cell itself.
fn comes_before(row: Row, port: u32, index: u32) -> bool
    ensures { result ≡ is_before port index row }
{
    row.instance == 0 && (row.port < port || (row.port == port && row.index < index))
}

// Whether a row is of a bit of the cell itself.
fn is_at(row: Row, port: u32, index: u32) -> bool
    ensures { result ≡ is_row_at port index row }
{
    row.instance == 0 && (row.port == port && row.index == index)
}

impl Rows {
    /// The table of these rows.
    pub fn of(rows: Vec<Row>, starts: Vec<usize>, ends: Vec<usize>) -> Rows
        requires { IsTable rows.items starts.items ends.items }
        ensures rows { result.rows ≡ rows.items }
        ensures starts { result.starts ≡ starts.items }
        ensures ends { result.ends ≡ ends.items }
    {
        Rows { rows, starts, ends }
    }

    /// How many rows there are.
    pub fn len(&self) -> usize
        ensures { result ≡ length self.now.rows }
    {
        self.rows.len()
    }

    /// A row.
    pub fn at(&self, place: usize) -> Row
        requires { place < length self.now.rows }
        ensures { slice_get self.now.rows place ≡ Some result }
    {
        self.rows[place]
    }

    /// Where the rows of a cell begin.
    pub fn start(&self, cell: u32) -> usize
        requires { cell < length self.now.starts }
        ensures start { result ≡ start_in self.now cell }
        ensures table { IsTable self.now.rows self.now.starts self.now.ends }
    {
        self.starts[cell as usize]
    }

    /// Where they end.
    pub fn end(&self, cell: u32) -> usize
        requires { cell < length self.now.starts }
        ensures end { result ≡ end_in self.now cell }
        ensures table { IsTable self.now.rows self.now.starts self.now.ends }
    {
        self.ends[cell as usize]
    }

    /// The first place of a cell's rows that isn't before an instance's bits.
    pub fn start_of(&self, cell: u32, instance: u32) -> usize
        requires { cell < length self.now.starts }
        ensures start { IsStartOf self.now cell instance result }
        ensures within { end_in self.now cell ≤ length self.now.rows }
    {
        let start = self.starts[cell as usize];
        let rows = &self.rows[start..self.ends[cell as usize]];
        start + rows.partition_point(|row| row.instance < instance)
    }

    /// The place behind an instance's rows, which begin at `start`.
    pub fn end_of(&self, cell: u32, instance: u32, start: usize) -> usize
        requires cell { cell < length self.now.starts }
        requires start { IsStartOf self.now cell instance start }
        ensures { IsEndOf self.now cell instance start result }
    {
        let rows = &self.rows[start..self.ends[cell as usize]];
        start + rows.partition_point(|row| row.instance <= instance)
    }

    /// The first place from `start` to `end`, where an instance's rows are, that isn't before a
    /// port's bits.
    pub fn from_port(&self, start: usize, end: usize, port: u32) -> usize
        requires { AreOfInstance self.now start end }
        ensures { IsCut (λ row. row.port < port) (λ row. port ≤ row.port) self.now.rows
            start end result }
    {
        let rows = &self.rows[start..end];
        start + rows.partition_point(|row| row.port < port)
    }

    // The first place of a cell's rows that isn't before those of a bit of the cell itself.
    fn place_of(&self, cell: u32, port: u32, index: u32) -> usize
        requires { cell < length self.now.starts }
        ensures { IsCut (λ row. is_before port index row ≡ true)
            (λ row. is_before port index row ≡ false) self.now.rows (start_in self.now cell)
            (end_in self.now cell) result }
    {
        let start = self.starts[cell as usize];
        let rows = &self.rows[start..self.ends[cell as usize]];
        start + rows.partition_point(|row| comes_before(*row, port, index))
    }

    /// The net that names a bit of the cell itself: the first one where there are several; none
    /// exactly where there is no such net.
    pub fn net_of(&self, cell: u32, port: u32, index: u32) -> Option<u32>
        requires { cell < length self.now.starts }
        ensures { MatchOption result (IsOnNone self.now cell port index)
            (λ net. IsNetOf self.now cell port index net) }
    {
        let place = self.place_of(cell, port, index);
        if place < self.ends[cell as usize] {
            let row = self.rows[place];
            if is_at(row, port, index) {
                return Some(row.net);
            }
        }
        None
    }
}
